//! The lanes between a node and its clients.
ghost use Rattle.std.specs.Prelude.{◌≡◌, OnOk, OnErr, is_some};
ghost use Rattle.std.specs.List.{position};
ghost use Rattle.qs_link.specs.Lanes.{is_of, delivered, put_to, taken_from, first_of, next_line, at_client, without_line, ends_of, SendsTo, SendsFrom, CarriesIn, CarriesOut};

use crate::{Draw, Feed, carry};
use qs_base::{ClientNo, NoMemory};
use qs_book_journal::{LineAnswer, ScriptLine};

/// The node's ends of the lanes of one of its clients: the commands come from there, the answers go there.
#[derive(Drop)]
pub struct NodeEnds {
    pub client: ClientNo,
    pub commands: Draw<ScriptLine>,
    pub answers: Feed<LineAnswer>,
}

/// The place of the lanes of a client: the first with its number.
fn place(ends: &[NodeEnds], client: ClientNo) -> Option<usize>
    ensures { result ≡ position (is_of client) ends.now }
{
    ends.iter().position(|end| end.client == client)
}

// ---- answers

/// Puts an answer into the lane of its client; where the client has no lanes it is dropped. After `NoMemory`, which comes
/// where memory was refused, all is as it was.
pub fn deliver(ends: &mut [NodeEnds], client: ClientNo, answer: LineAnswer) -> Result<(), NoMemory>
    ensures ok { OnOk result (ends.new ≡ delivered client answer ends.old) }
    ensures err { OnErr result (ends.new ≡ ends.old) }
{
    match place(ends, client) {
        Some(at) => put(&mut ends[at].answers, answer),
        None => {
            drop(answer);
            Ok(())
        }
    }
}

fn put(answers: &mut Feed<LineAnswer>, answer: LineAnswer) -> Result<(), NoMemory>
    ensures ok { OnOk result (answers.new ≡ put_to answer answers.old) }
    ensures err { OnErr result (answers.new ≡ answers.old) }
{
    match answers.put(answer) {
        Ok(()) => Ok(()),
        Err(refused) => {
            drop(refused);
            Err(NoMemory)
        }
    }
}

// ---- commands

/// Takes the next command of the client that was carried.
pub fn take_line(ends: &mut [NodeEnds], client: ClientNo) -> Option<ScriptLine>
    ensures line { result ≡ next_line client ends.old }
    ensures left { ends.new ≡ at_client client without_line ends.old }
{
    match place(ends, client) {
        Some(at) => take(&mut ends[at].commands),
        None => None,
    }
}

fn take(commands: &mut Draw<ScriptLine>) -> Option<ScriptLine>
    ensures line { result ≡ first_of commands.old.inbox }
    ensures left { commands.new ≡ taken_from commands.old }
{
    commands.take_carried()
}

/// Whether a command of the client was carried and not taken.
pub fn has_line(ends: &[NodeEnds], client: ClientNo) -> bool
    ensures { result ≡ is_some (next_line client ends.now) }
{
    match place(ends, client) {
        Some(at) => has_command(&ends[at].commands),
        None => false,
    }
}

fn has_command(commands: &Draw<ScriptLine>) -> bool
    ensures { result ≡ is_some (first_of commands.now.inbox) }
{
    commands.carried() > 0
}

// ---- carrying

/// Moves what the client has sent into the inbox of its lane here, and says how many commands that then holds. After
/// `NoMemory`, which comes where memory was refused, a front was moved and nothing is lost. Where the client has no lanes it
/// has sent nothing.
pub fn carry_in(
    ends: &mut [NodeEnds],
    client: ClientNo,
    from: &mut Feed<ScriptLine>,
) -> Result<usize, NoMemory>
    requires { SendsTo from.old (ends_of client ends.old) }
    ensures { CarriesIn client from.old from.new ends.old ends.new result (ends_of client ends.old) }
{
    match place(ends, client) {
        Some(at) => carry(from, &mut ends[at].commands),
        None => Ok(0),
    }
}

/// Moves what was sent to the client into the inbox of its lane there, as `carry_in`.
pub fn carry_out(
    ends: &mut [NodeEnds],
    client: ClientNo,
    to: &mut Draw<LineAnswer>,
) -> Result<usize, NoMemory>
    requires { SendsFrom (ends_of client ends.old) to.old }
    ensures { CarriesOut client to.old to.new ends.old ends.new result (ends_of client ends.old) }
{
    match place(ends, client) {
        Some(at) => carry(&mut ends[at].answers, to),
        None => Ok(0),
    }
}
