//! What a run came to is judged, and what is to be given of it made.
ghost use Rattle.std.specs.Prelude.{◌≡◌};
ghost use Rattle.qs_book_machine.specs.Opening.{opening};
ghost use Rattle.qs_top.specs.Inner.Making.{not_opened, IsJudgedEnd, IsJudgedShort, IsMadeFrom, IsNothingMade};

use crate::{judged, told};
use qs_base::{Bytes, List, NodeNo};
use qs_book::Opened;
use qs_book_journal::Entry;
use qs_log::OpenFault;
use qs_node_step::Step;
use qs_text::{Script, Shown, Status};
use qs_world_rounds::{Ending, RoundFault};
use std::alloc::Global;

/// What a run came to before anything was given.
#[derive(Drop)]
pub struct RunMade {
    pub status: Status,
    pub journal: List<Entry>,
    pub trace: List<Step>,
    /// What is to be given, where anything is.
    pub output: Option<Bytes>,
}

/// A run that ended before it made an entry.
pub(crate) fn nothing_made(alloc: Global, status: Status) -> RunMade
    ensures nothing { IsNothingMade result }
    ensures status { result.status ≡ status }
{
    RunMade {
        status,
        journal: List::new(alloc),
        trace: List::new(alloc),
        output: None,
    }
}

/// The status of a run whose node's log was not opened.
pub(crate) fn not_opened(node: NodeNo, why: OpenFault) -> Status
    ensures { result ≡ not_opened node why }
{
    match why {
        OpenFault::DiskFailed => Status::DiskFault { node },
        OpenFault::Damaged { at } => Status::Damaged { node, at },
        OpenFault::NoMemory => Status::NoMemory,
    }
}

/// What came of the rounds, where the machine opens with this.
pub(crate) fn made_from(
    alloc: Global,
    script: &Script,
    shown: Shown,
    ending: Result<Ending, RoundFault>,
    opened: &[Opened],
    journal: List<Entry>,
    trace: List<Step>,
) -> RunMade
    ensures { IsMadeFrom script.now shown ending (opening opened.now) journal trace result }
{
    match ending {
        Ok(ending) => ended(alloc, script, shown, ending, opened, journal, trace),
        Err(RoundFault::DiskFault { node }) => {
            cut_short(alloc, script, node, opened, journal, trace)
        }
        // (over a disk that tells it never comes)
        Err(RoundFault::Damaged) => nothing_made(alloc, Status::NoMemory),
        Err(RoundFault::NoMemory) => nothing_made(alloc, Status::NoMemory),
    }
}

/// A run that came to its end: it is judged, and its output made.
fn ended(
    alloc: Global,
    script: &Script,
    shown: Shown,
    ending: Ending,
    opened: &[Opened],
    journal: List<Entry>,
    trace: List<Step>,
) -> RunMade
    ensures { IsJudgedEnd script.now shown ending (opening opened.now) journal trace result }
{
    let Ending { rounds, settled } = ending;
    match told(alloc, script, rounds, settled, opened, &journal, shown) {
        Ok((status, output)) => RunMade {
            status,
            journal,
            trace,
            output: Some(output),
        },
        Err(status) => nothing_made(alloc, status),
    }
}

/// A run whose node's disk failed as the node was started again. It is judged too, and gives nothing.
fn cut_short(
    alloc: Global,
    script: &Script,
    node: NodeNo,
    opened: &[Opened],
    journal: List<Entry>,
    trace: List<Step>,
) -> RunMade
    ensures { IsJudgedShort script.now node (opening opened.now) journal trace result }
{
    match judged(alloc, script, opened, journal.as_slice()) {
        Ok(_) => RunMade {
            status: Status::DiskFault { node },
            journal,
            trace,
            output: None,
        },
        Err(why) => nothing_made(alloc, why),
    }
}
