//! The visits of a round: of the node, and of a client.
ghost use Rattle.std.specs.Prelude.{◌≡◌, ◌<◌, false, true, List, length, slice_get, Err, IfOk, OnErr, OnOk};
ghost use Rattle.qs_base.specs.declared.identifiers.NodeNo.{NodeNo};
ghost use Rattle.qs_cell.specs.Joined.{StayJoined};
ghost use Rattle.qs_cell.specs.Logged.{most_rounds};
ghost use Rattle.qs_cell.specs.Starts.{journal_of};
ghost use Rattle.qs_cell.specs.State.{rounds_of};
ghost use Rattle.qs_cell.specs.Visits.{Grows};
ghost use Rattle.qs_cell_peers.specs.Links.{StayLinked};
ghost use Rattle.qs_link.specs.declared.ends.NodeEnds.{NodeEnds};
ghost use Rattle.qs_world_rounds.specs.Breaks.{NodeFails, NodeRefusedIf};
ghost use Rattle.qs_world_rounds.specs.Lanes.{AllJoined};
ghost use Rattle.qs_world_rounds.specs.Rounds.{ClientVisitAt, IsSameStart, NodeActs, NodeStarts, NodeVisit, is_refused, is_up};
ghost use Rattle.qs_world_rounds.specs.Turns.{ActsInTurn, IsRefusedInAct};
ghost use Rattle.qs_world_rounds.specs.declared.faults.RoundFault.TheVariants as faults;

use crate::faults::RoundFault;
use qs_base::NoMemory;
use qs_book_journal::CrashCause;
use qs_cell::{NodeCell, RestartFault};
use qs_client::ClientCell;
use qs_disk::Disk;

/// A node that is up makes its events; one that is down is started again. It answers whether anything was done. `Damaged` comes
/// where its log opened as damaged, which over a disk that tells it never does within 2^61 - 2 visits and restarts.
pub fn visit_node<D: Disk>(node: &mut NodeCell<D>) -> Result<bool, RoundFault>
    ensures visits { IfOk result (NodeVisit D.told D.state D.fault_count D.byte_count node.old node.new) }
    ensures broken { (at : NodeNo) → result ≡ Err (faults.DiskFault at) → NodeFails D.told D.state D.fault_count D.byte_count node.old node.new }
    ensures refused { result ≡ Err faults.NoMemory → NodeRefusedIf (is_up node.old) D.told D.state D.fault_count D.byte_count node.old node.new }
    ensures damaged { D.told → result ≡ Err faults.Damaged → most_rounds < rounds_of node.old.seat.node }
    ensures named { (at : NodeNo) → result ≡ Err (faults.DiskFault at) → at ≡ node.old.links.me }
    ensures start { IsSameStart node.old node.new }
    ensures grows { Grows (journal_of node.old) (journal_of node.new) }
    ensures joined { StayJoined node.old.seat.ends node.new.seat.ends }
    ensures linked { StayLinked node.old.links node.new.links }
{
    if !node.is_up() {
        return restart(node);
    }
    let did = act(node)?;
    Ok(did)
}

/// A node that is up makes its events. It answers whether an entry other than that of a tick was made, or a packet sent.
/// `NoMemory` comes where memory was refused, be it within a step.
fn act<D: Disk>(node: &mut NodeCell<D>) -> Result<bool, NoMemory>
    ensures acts { IfOk result (NodeActs D.told D.state D.fault_count D.byte_count node.old node.new) }
    ensures refused { OnErr result (NodeRefusedIf true D.told D.state D.fault_count D.byte_count node.old node.new) }
    ensures start { IsSameStart node.old node.new }
    ensures grows { Grows (journal_of node.old) (journal_of node.new) }
    ensures joined { StayJoined node.old.seat.ends node.new.seat.ends }
    ensures linked { StayLinked node.old.links node.new.links }
{
    let visited = node.visit()?;
    if is_refused(node.cause()) {
        return Err(NoMemory);
    }
    Ok(visited.sent || visited.noted)
}

/// The act of a node in a burst. `NoMemory` comes where memory was refused, be it within a step.
pub fn act_in_burst<D: Disk>(node: &mut NodeCell<D>) -> Result<(), NoMemory>
    ensures acts { OnOk result (ActsInTurn D.told D.state D.fault_count D.byte_count node.old node.new) }
    ensures refused { OnErr result (IsRefusedInAct D.told D.state D.fault_count D.byte_count node.old node.new) }
    ensures start { IsSameStart node.old node.new }
    ensures grows { Grows (journal_of node.old) (journal_of node.new) }
    ensures joined { StayJoined node.old.seat.ends node.new.seat.ends }
    ensures linked { StayLinked node.old.links node.new.links }
{
    node.act()?;
    if is_refused(node.cause()) {
        return Err(NoMemory);
    }
    Ok(())
}

/// Whether a node stopped for want of memory.
fn is_refused(cause: Option<CrashCause>) -> bool
    ensures { result ≡ is_refused cause }
{
    matches!(cause, Some(CrashCause::Memory))
}

/// A node that is down is started again; it stays down where its fuse trips.
fn restart<D: Disk>(node: &mut NodeCell<D>) -> Result<bool, RoundFault>
    requires down { is_up node.old ≡ false }
    ensures starts { IfOk result (NodeStarts D.told D.state D.fault_count D.byte_count node.old node.new) }
    ensures broken { (at : NodeNo) → result ≡ Err (faults.DiskFault at) → NodeFails D.told D.state D.fault_count D.byte_count node.old node.new }
    ensures refused { result ≡ Err faults.NoMemory → NodeRefusedIf false D.told D.state D.fault_count D.byte_count node.old node.new }
    ensures damaged { D.told → result ≡ Err faults.Damaged → most_rounds < rounds_of node.old.seat.node }
    ensures named { (at : NodeNo) → result ≡ Err (faults.DiskFault at) → at ≡ node.old.links.me }
    ensures start { IsSameStart node.old node.new }
    ensures grows { Grows (journal_of node.old) (journal_of node.new) }
    ensures ends { node.new.seat.ends ≡ node.old.seat.ends }
    ensures links { node.new.links ≡ node.old.links }
{
    match node.restart() {
        Ok(up) => Ok(up),
        Err(RestartFault::DiskFailed) => Err(RoundFault::DiskFault { node: node.node() }),
        Err(RestartFault::Damaged { .. }) => Err(RoundFault::Damaged),
        Err(RestartFault::NoMemory) => Err(RoundFault::NoMemory),
    }
}

/// The visit of the client at that place, where there is one.
pub fn visit_client(clients: &mut Vec<ClientCell>, at: usize) -> Result<bool, NoMemory>
    ensures visits { IfOk result (ClientVisitAt at (slice_get clients.old.items at) clients.old.items clients.new.items) }
    ensures each { (ends : List NodeEnds) → AllJoined ends clients.old.items → AllJoined ends clients.new.items }
    ensures count { length clients.new.items ≡ length clients.old.items }
{
    if at < clients.len() {
        return clients[at].visit();
    }
    Ok(false)
}
