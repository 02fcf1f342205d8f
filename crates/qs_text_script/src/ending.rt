//! The line that tells how a run ended, and the verdict on a lawful history.
ghost use Rattle.std.specs.Prelude.{◌≡◌, Some, IfOk};
ghost use Rattle.std.specs.Fmt.{WritesOnOk};
ghost use Rattle.qs_text_script.specs.StatusLine.{status_text, waiting_text, fault_text, lawful_text};

use qs_base::{Bytes, NoMemory};
use qs_book_script::{ScriptFault, Status, Waiting};
use std::alloc::Global;
use std::fmt;

/// The line of a status as it is shown, without the line feed at its end. To show it takes no memory.
#[derive(Clone, Copy)]
pub struct StatusLine<'a>(pub &'a Status);

impl fmt::Display for StatusLine<'_> {
    ghost output = { λ line. Some (status_text line.0.now) };

    fn fmt<W: fmt::Write>(&self, f: &mut fmt::Formatter<W>) -> fmt::Result {
        match self.0 {
            Status::Finished => write!(f, "qs: finished"),
            Status::Usage => write!(f, "qs: usage: qs run N [--serial SEED] [--journal]"),
            Status::Script { line, fault } => {
                write!(f, "qs: script line {}: {}", *line, fault_text(*fault))
            }
            Status::ReadFault => write!(f, "qs: read fault"),
            Status::WriteFault => write!(f, "qs: write fault"),
            Status::DiskFault { node } => write!(f, "qs: disk fault at node {}", node.0),
            Status::Damaged { node, at } => {
                write!(f, "qs: damaged disk of node {} at byte {}", node.0, *at)
            }
            Status::NoRoom { node, need, room } => {
                write!(
                    f,
                    "qs: no room on node {}: need {} room {}",
                    node.0, *need, *room
                )
            }
            Status::Unlawful { line, clause } => {
                write!(f, "qs: unlawful at line {}: clause {}", *line, *clause)
            }
            Status::Journal { line } => write!(f, "qs: no journal at line {}", *line),
            Status::LastGeneration { node } => write!(f, "qs: last generation on node {}", node.0),
            Status::Unfinished { rounds, waiting } => {
                write!(f, "qs: unfinished after {} rounds, waiting", *rounds)?;
                write_waiting(f, waiting.as_slice())
            }
            Status::NoMemory => write!(f, "qs: no memory"),
        }
    }
}

/// Writes the clients that wait, each with its line.
fn write_waiting<W: fmt::Write>(f: &mut fmt::Formatter<W>, waiting: &[Waiting]) -> fmt::Result
    ensures { WritesOnOk W.write_str_gives f.old result (waiting_text waiting.now) f.new }
{
    if waiting.is_empty() {
        return write!(f, " none");
    }
    for one in waiting {
        write!(f, " {}:{}", one.client.0, one.line)?;
    }
    Ok(())
}

/// The line of a status, without the line feed at its end.
pub fn status_line(alloc: Global, status: &Status) -> Result<Bytes, NoMemory>
    ensures { IfOk result (λ line. line ≡ status_text status.now) }
{
    let text = StatusLine(status).to_string(alloc)?;
    Bytes::from_slice(alloc, text.as_bytes())
}

/// The verdict on a lawful history of so many entries, with the line feed at its end.
pub fn lawful_text(alloc: Global, entries: usize) -> Result<Bytes, NoMemory>
    ensures { IfOk result (λ text. text ≡ lawful_text entries) }
{
    let text = format!(in alloc; "lawful {entries}\n")?;
    Bytes::from_slice(alloc, text.as_bytes())
}

/// The words for a fault of a script.
fn fault_text(fault: ScriptFault) -> &'static str
    ensures { result.now ≡ fault_text fault }
{
    match fault {
        ScriptFault::TooLarge => "too large",
        ScriptFault::BadByte => "bad byte",
        ScriptFault::BadWord => "bad word",
        ScriptFault::BadCount => "bad count",
        ScriptFault::Unknown => "unknown",
        ScriptFault::Twice => "twice",
        ScriptFault::Limit => "limit",
        ScriptFault::Open => "open",
    }
}
