//! The actors of a script as a run begins: the node over its disk, and its clients at their seats.
ghost use Rattle.std.specs.Prelude.{◌≡◌, ◌++◌, ◌≤◌, ◌<◌, ◌+◌, ℕ, map, IfOk, IfErr, OnOk};
ghost use Rattle.qs_base.specs.Causes.{Rose};
ghost use Rattle.qs_disk.specs.Moments.{Keeps};
ghost use Rattle.qs_log_start.specs.Incarnation.{open_limit, IsTouched, MayLeaveUnraised};
ghost use Rattle.qs_log.specs.Image.{IsDamaged};
ghost use Rattle.qs_log.specs.declared.fault.OpenFault.TheVariants as open_faults;
ghost use Rattle.qs_world_rounds.specs.Lanes.{AreJoined};
ghost use Rattle.qs_world_rounds.specs.Seats.{AreLinksOf, AreSeated, BeginsAt, IsOneMore, begun_disk, number_of, plan_of, seated, seated_as, sits_at};

use crate::actors::Actors;
use qs_base::{ClientNo, NoMemory, NodeNo};
use qs_book_script::{Script, Seat};
use qs_cell::{CellOpen, NodeCell, NodeEnds, NodePlan};
use qs_cell_peers::Links;
use qs_client::{ClientCell, ClientEnds};
use qs_disk::{Disk, Fused};
use qs_link::lane;
use qs_log::OpenFault;
use qs_world_plans::{commands_of, crashes_of, points_of, setting_of, stops_of};
use std::alloc::Global;

/// No client of a script has a number as great as this.
const CLIENT_COUNT: u8 = 32;

/// What the incarnation of a node is before its log is raised.
const NOT_RAISED: u64 = 0;

/// The clients of a script, with the node's ends of their lanes, by number.
#[derive(Drop)]
struct Seated {
    clients: Vec<ClientCell>,
    ends: Vec<NodeEnds>,
}

/// A node of a run of so many opens the log of its disk, whose slots stand below 2^61, and raises its incarnation, and the clients
/// that the script seats there stand at the first of their lines. Where the log is not opened the disk is handed back:
/// `DiskFailed` comes only where its own count of faults rose, `NoMemory` where memory was refused.
pub fn start_at<D: Disk>(
    alloc: Global,
    script: &Script,
    nodes: u8,
    node: NodeNo,
    links: Links,
    disk: Fused<D>,
) -> Result<Actors<D>, CellOpen<D>>
    requires nodes { nodes ≤ 8 }
    requires node { node.0 < nodes }
    requires links { AreLinksOf nodes node links }
    ensures begun { IfOk result (BeginsAt D.told D.state D.fault_count alloc script.now nodes node disk.disk) }
    ensures links { IfOk result (λ cast. cast.node.links ≡ links) }

    // Why they do not begin.
    ensures damaged { D.told → IfErr result (λ back. (at : ℕ) → back.why ≡ open_faults.Damaged at → IsDamaged open_limit (D.state disk.disk).content at) }
    ensures failed { IfErr result (λ back. back.why ≡ open_faults.DiskFailed → Rose (D.fault_count disk.disk) (D.fault_count back.disk.disk)) }

    // The disk is changed at most by the raise, and where it failed a power cut may still leave it unraised.
    ensures moments { D.told → Keeps (IsTouched (D.state disk.disk)) (D.state disk.disk) (D.state (begun_disk result).disk) }
    ensures kept { D.told → IfErr result (λ back. back.why ≡ open_faults.DiskFailed → MayLeaveUnraised (D.state disk.disk) (D.state back.disk.disk)) }
    ensures size { D.byte_count (begun_disk result).disk ≡ D.byte_count disk.disk }
{
    let (Seated { clients, ends }, plan) = match made_ready(alloc, script, node) {
        Ok(ready) => ready,
        Err(NoMemory) => {
            return Err(CellOpen {
                disk,
                why: OpenFault::NoMemory,
            });
        },
    };
    let setting = setting_of(script, nodes, node, NOT_RAISED);
    match NodeCell::start(alloc, disk, setting, links, ends, plan) {
        Ok(node) => Ok(Actors::new(node, clients)),
        Err(back) => Err(back),
    }
}

fn made_ready(alloc: Global, script: &Script, node: NodeNo) -> Result<(Seated, NodePlan), NoMemory>
    ensures seats { IfOk result (λ ready. AreSeated script.now ready.0.clients.items ready.0.ends.items) }
    ensures numbers { IfOk result (λ ready. map number_of ready.0.clients.items ≡ seated node script.now.seats) }
    ensures joined { IfOk result (λ ready. AreJoined ready.0.ends.items ready.0.clients.items) }
    ensures plan { IfOk result (λ ready. ready.1 ≡ plan_of node script.now.faults) }
{
    let seated = seat_all(alloc, script, node)?;
    let plan = plan_of(alloc, script, node)?;
    Ok((seated, plan))
}

/// What the script has planned for the node.
fn plan_of(alloc: Global, script: &Script, node: NodeNo) -> Result<NodePlan, NoMemory>
    ensures { IfOk result (λ plan. plan ≡ plan_of node script.now.faults) }
{
    let faults = script.faults.as_slice();
    Ok(NodePlan {
        crashes: crashes_of(alloc, faults, node)?,
        stops: stops_of(alloc, faults, node)?,
        points: points_of(alloc, faults, node)?,
    })
}

/// The clients that the script seats at the node, by number, each with its lanes to it.
fn seat_all(alloc: Global, script: &Script, node: NodeNo) -> Result<Seated, NoMemory>
    ensures seats { IfOk result (λ all. AreSeated script.now all.clients.items all.ends.items) }
    ensures numbers { IfOk result (λ all. map number_of all.clients.items ≡ seated node script.now.seats) }
    ensures joined { IfOk result (λ all. AreJoined all.ends.items all.clients.items) }
{
    let mut all = Seated {
        clients: Vec::new(alloc),
        ends: Vec::new(alloc),
    };
    for number in 0..CLIENT_COUNT {
        seat_if(alloc, &mut all, script, node, ClientNo(number))?;
    }
    Ok(all)
}

/// The client takes its seat, if it has one at the node.
fn seat_if(
    alloc: Global,
    all: &mut Seated,
    script: &Script,
    node: NodeNo,
    client: ClientNo,
) -> Result<(), NoMemory>
    ensures seats { OnOk result (AreSeated script.now all.old.clients.items all.old.ends.items → AreSeated script.now all.new.clients.items all.new.ends.items) }
    ensures numbers { OnOk result (map number_of all.new.clients.items ≡ map number_of all.old.clients.items ++ seated_as node client script.now.seats) }
{
    if sits_at(script.seats.as_slice(), node, client) {
        seat(alloc, all, script, client)?;
    }
    Ok(())
}

/// Whether a line gives the client a seat at the node.
pub fn sits_at(seats: &[Seat], node: NodeNo, client: ClientNo) -> bool
    ensures { result ≡ sits_at node client seats.now }
{
    seats
        .iter()
        .any(|seat| seat.client == client && seat.node == node)
}

/// One more client, at the first of its lines.
fn seat(alloc: Global, all: &mut Seated, script: &Script, client: ClientNo) -> Result<(), NoMemory>
    ensures more { OnOk result (IsOneMore script.now client all.old.clients.items all.old.ends.items all.new.clients.items all.new.ends.items) }
{
    let (commands, to_node) = lane(alloc)?;
    let (from_node, answers) = lane(alloc)?;
    let lines = commands_of(alloc, script.lines.as_slice(), client)?;
    all.clients.push(ClientCell::new(client, lines, ClientEnds { commands, answers }))?;
    all.ends.push(NodeEnds {
        client,
        commands: to_node,
        answers: from_node,
    })?;
    Ok(())
}
