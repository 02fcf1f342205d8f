//! A script is run over disks, in one thread.
ghost use Rattle.std.specs.Prelude.{◌≡◌, ◌≤◌, [], length, vec_capacity, IfOk};
ghost use Rattle.qs_world_serial.specs.Behind.{AreAllLinks};
ghost use Rattle.qs_world_serial.specs.Serial.{IsRun};
ghost use Rattle.qs_world_sites.specs.Seats.{turns_of};

use crate::places::{Course, Seating, over_places};
use qs_base::{List, NoMemory, NodeNo};
use qs_book_journal::Entry;
use qs_book_machine::Opened;
use qs_book_script::Script;
use qs_disk::Disk;
use qs_log::OpenFault;
use qs_node_step::Step;
use qs_world_rounds::{Ending, RoundFault};
use qs_world_sites::{new_links, turns_of};
use std::alloc::Global;

/// What a serial run came to.
#[derive(Drop)]
pub enum SerialRun {
    /// The log of that node was not opened, for its disk or a damage; where it is for want of memory, that is told alone.
    NotOpened {
        node: NodeNo,
        why: OpenFault,
    },
    /// Memory was refused before each node had begun.
    NoMemory,
    /// The rounds ended so, and this is told of each node, by number; or memory was refused as it was collected.
    Ended {
        ending: Result<Ending, RoundFault>,
        tells: Result<List<SiteTold>, NoMemory>,
    },
}

/// What is told of a node.
#[derive(Drop)]
pub struct SiteTold {
    /// What its log held as it was opened.
    pub opened: Opened,
    pub journal: List<Entry>,
    pub trace: List<Step>,
}

/// Runs a script over these disks, one for each of its nodes, by number: each node opens the log of its disk, whose slots stand below
/// 2^61, and raises its incarnation; then they make rounds whose orders the seed draws, up to an end, as `rounds_of` tells; and each disk is
/// in its place again.
///
/// `NotOpened` comes where the log of a node was not opened: with `DiskFailed` only where its disk's own count of faults rose, and over
/// a disk that tells it with `Damaged` only at a damage of its content. `NoMemory` comes where memory was refused before each node had
/// begun. Either way no round was made, and each disk is changed at most by the raise.
pub fn run_serial<D: Disk>(alloc: Global, script: &Script, seed: u64, disks: &mut [D]) -> SerialRun
    requires some { 1 ≤ length disks.old }
    requires few { length disks.old ≤ 8 }
    ensures { IsRun D.told D.state D.fault_count D.byte_count script.now seed result disks.old disks.new }
{
    let nodes = disks.len() as u8;
    let mut seating = match seated(alloc, script, nodes) {
        Ok(seating) => seating,
        Err(NoMemory) => return SerialRun::NoMemory,
    };
    let course = Course { alloc, seed, nodes };
    let run = over_places(course, script, &mut seating, disks);
    let Seating {
        sites,
        links: _links,
        turns: _turns,
    } = seating;
    sites.destroy_empty();
    run
}

/// The links of all nodes and the order of their actors, before a node has begun.
fn seated<D: Disk>(alloc: Global, script: &Script, nodes: u8) -> Result<Seating<D>, NoMemory>
    requires some { 1 ≤ nodes }
    requires few { nodes ≤ 8 }
    ensures links { IfOk result (λ seating. AreAllLinks script.now.faults nodes seating.links.items) }
    ensures turns { IfOk result (λ seating. seating.turns.items ≡ turns_of nodes script.now.seats) }
    ensures none { IfOk result (λ seating. seating.sites.items ≡ []) }
    ensures room { IfOk result (λ seating. nodes ≤ vec_capacity seating.sites) }
{
    let links = new_links(alloc, script.faults.as_slice(), nodes)?;
    let turns = turns_of(alloc, nodes, script.seats.as_slice())?;
    Ok(Seating {
        links,
        sites: Vec::with_capacity(alloc, usize::from(nodes))?,
        turns,
    })
}
