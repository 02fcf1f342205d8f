//! Which clients have commands that are not answered.
ghost use Rattle.std.specs.Prelude.{◌≡◌, ◌<◌, [], ◌++◌, IfOk, OnOk, slice_get};
ghost use Rattle.std.specs.Option.{option_copied};
ghost use Rattle.qs_base.specs.declared.identifiers.ClientNo.{ClientNo};
ghost use Rattle.qs_world_plans.specs.Plan.{commands_of};
ghost use Rattle.qs_world_plans.specs.Waiting.{is_answer_to, answers, answered_of, waiting_in, waiting_of};

use qs_base::{ClientNo, List, NoMemory};
use qs_book_journal::{Act, Entry, ScriptLine};
use qs_book_script::{Script, Waiting};
use std::alloc::Global;

/// The numbers of clients are below this.
const CLIENT_COUNT: u8 = 32;

/// The clients whose scripts have not ended after the journal, by number, each with its first command that is not answered.
/// The only error is a refusal of memory.
pub fn waiting_of(
    alloc: Global,
    script: &Script,
    journal: &[Entry],
) -> Result<List<Waiting>, NoMemory>
    ensures { IfOk result (λ waiting. waiting ≡ waiting_of script.now journal.now) }
{
    let mut waiting = List::new(alloc);
    let highest = highest_client(script.lines.as_slice());
    for number in 0..CLIENT_COUNT {
        if number <= highest {
            put_waiting(script, journal, ClientNo(number), &mut waiting)?;
        }
    }
    Ok(waiting)
}

/// No client above this number has a command.
fn highest_client(lines: &[ScriptLine]) -> u8
    ensures { (client : ClientNo) → result < client.0 → commands_of client lines.now ≡ [] }
{
    let mut highest = 0;
    for line in lines {
        highest = highest.max(line.client.0);
    }
    highest
}

/// Adds the client, where a command of it is not answered.
fn put_waiting(
    script: &Script,
    journal: &[Entry],
    client: ClientNo,
    waiting: &mut List<Waiting>,
) -> Result<(), NoMemory>
    ensures { OnOk result (waiting.new ≡ waiting.old ++ waiting_in client script.now journal.now) }
{
    match unanswered(client, script.lines.as_slice(), journal) {
        None => Ok(()),
        Some(line) => waiting.push(Waiting {
            client,
            line: line.line,
        }),
    }
}

/// The first command of the client that is not answered. The journal is not read for a client that has none.
fn unanswered<'a>(
    client: ClientNo,
    lines: &'a [ScriptLine],
    journal: &[Entry],
) -> Option<&'a ScriptLine>
    ensures { option_copied result ≡ slice_get (commands_of client lines.now) (answered_of client journal.now) }
{
    command_at(client, lines, 0)?;
    command_at(client, lines, answered_of(client, journal))
}

/// The command of the client before which so many of it stand.
fn command_at(client: ClientNo, lines: &[ScriptLine], place: usize) -> Option<&ScriptLine>
    ensures { option_copied result ≡ slice_get (commands_of client lines.now) place }
{
    let mut before = place;
    for line in lines {
        if line.client == client {
            if before == 0 {
                return Some(line);
            }
            before -= 1;
        }
    }
    None
}

/// How many commands of the client were answered.
fn answered_of(client: ClientNo, journal: &[Entry]) -> usize
    ensures { result ≡ answered_of client journal.now }
{
    let mut count = 0;
    for entry in journal {
        if answers(client, entry) {
            count += 1;
        }
    }
    count
}

fn answers(client: ClientNo, entry: &Entry) -> bool
    ensures { result ≡ answers client entry.now }
{
    is_answer_to(client, &entry.act)
}

fn is_answer_to(client: ClientNo, act: &Act) -> bool
    ensures { result ≡ is_answer_to client act.now }
{
    match act {
        Act::Answer { client: other, .. } => other.0 == client.0,
        _ => false,
    }
}
