//! What a cell carries through crashes.
ghost use Rattle.std.specs.Prelude.{◌≡◌, fold, OnOk, OnErr};
ghost use Rattle.qs_cell_chronicle.specs.Carried.{in_hand, answered, is_replaced};

use crate::Watched;
use crate::chronicle::Chronicle;
use qs_base::{ClientNo, Copied, List, NoMemory};
use qs_base_map::Map;
use qs_book_journal::ScriptLine;
use qs_node_step::{ClientAnswer, Setting};

/// A command that a node took and did not answer.
#[derive(Drop)]
pub struct HeldCommand {
    pub line: ScriptLine,
    /// The incarnation that took it.
    pub inc: u64,
}

/// What a cell carries through crashes.
#[derive(Drop)]
pub struct Carried {
    /// What the node is made with in the present incarnation.
    pub setting: Setting,
    pub chronicle: Chronicle,
    /// The commands that were taken and are not answered.
    pub commands: Map<ClientNo, HeldCommand>,
    /// The numbers of the events that a crash stands in place of.
    pub crashes: List<u64>,
    /// The lines of the script that stop the node at an entry.
    pub points: Vec<Watched>,
}

/// The command comes to the incarnation. After a refusal all is as it was.
pub fn take_in_hand(
    commands: &mut Map<ClientNo, HeldCommand>,
    line: &ScriptLine,
    inc: u64,
) -> Result<(), NoMemory>
    ensures ok { OnOk result (commands.new ≡ in_hand inc line.now commands.old) }
    ensures err { OnErr result (commands.new ≡ commands.old) }
{
    let held = HeldCommand {
        line: line.copy()?,
        inc,
    };
    commands.put(line.client, held)
}

/// Commands are answered. It takes no memory.
pub fn answer_all(commands: &mut Map<ClientNo, HeldCommand>, answers: &[ClientAnswer])
    ensures { commands.new ≡ answered answers.now commands.old }
{
    for said in answers {
        commands.remove(&said.client);
    }
}

/// Whether the script stops the node in place of the event with that number.
pub fn is_replaced(number: u64, crashes: &List<u64>) -> bool
    ensures { result ≡ is_replaced number crashes.now }
{
    crashes.as_slice().iter().any(|planned| *planned == number)
}
