//! The start of a cell: the log of its disk is opened and its incarnation raised, and the node begins with what that says.
ghost use Rattle.std.specs.Prelude.{◌≡◌, ◌≤◌, ◌<◌, ◌^◌, [], map, IfOk, IfErr};
ghost use Rattle.qs_cell.specs.Restart.{inc_of, found_in};
ghost use Rattle.qs_cell.specs.Starts.{Begins, seen_first, setting_in, watched_of};
ghost use Rattle.qs_cell_chronicle.specs.Carried.{seen};
ghost use Rattle.qs_node_kept.specs.Keeping.{no_kept};
ghost use Rattle.qs_log.specs.declared.fault.OpenFault.TheVariants as open_faults;

use crate::running::Running;
use qs_base::{List, NoMemory};
use qs_base_map::Map;
use qs_book_journal::Point;
use qs_cell_chronicle::{Carried, Chronicle, Watched};
use qs_cell_peers::Sessions;
use qs_disk::{Disk, Fused};
use qs_files::Files;
use qs_log::{Log, OpenFault};
use qs_node_host::{Host, HostOpen};
use qs_node_kept::Kept;
use qs_node_step::Setting;
use qs_ops::{NoServer, Server};
use qs_restart::{Recovered, recover};
use std::alloc::Global;

/// What a script has planned for a node.
#[derive(Drop)]
pub struct NodePlan {
    /// The numbers of the events that a crash stands in place of.
    pub crashes: List<u64>,
    /// The numbers of the disk calls that trip, from 1 once the node has started.
    pub stops: List<u64>,
    /// The entries before or after which the node stops.
    pub points: List<Point>,
}

/// What a cell that was not started hands back.
#[derive(Drop)]
pub struct CellOpen<D: Disk> {
    pub disk: Fused<D>,
    pub why: OpenFault,
}

/// What a node begins with.
#[derive(Drop)]
pub struct Started<D: Disk> {
    pub running: Running<D, Files, NoServer>,
    /// What its log says.
    pub found: Recovered,
}

/// The node begins the incarnation of its log, unless memory is refused.
pub fn begin<D: Disk>(
    alloc: Global,
    log: Log<Fused<D>>,
    setting: Setting,
    crashes: List<u64>,
    points: List<Point>,
) -> Result<Started<D>, CellOpen<D>>
    requires batch { setting.extra ≤ 8 }
    requires keep { setting.keep ≤ 144 }
    requires nodes { setting.nodes ≤ 8 }
    requires node { setting.node.0 < setting.nodes }
    requires inc { inc_of log < 2 ^ 62 }
    ensures begins { IfOk result (λ started. Begins alloc setting crashes points log started.running) }
    ensures found { IfOk result (λ started. started.found ≡ found_in log) }
    ensures disk { IfErr result (λ back. back.disk ≡ log.disk) }
    ensures why { IfErr result (λ back. back.why ≡ open_faults.NoMemory) }
{
    let (found, carried) = match read(alloc, &log, setting, crashes, points) {
        Ok(read) => read,
        Err(NoMemory) => return Err(without_memory(log)),
    };
    let again = match recover(alloc, log.records()) {
        Ok(again) => again,
        Err(NoMemory) => {
            drop(found);
            drop(carried);
            return Err(without_memory(log));
        },
    };
    let setting = carried.setting;
    let Ok(sessions) = Sessions::new(alloc, setting.node, setting.nodes, setting.inc) else {
        drop(found);
        drop(carried);
        drop(again);
        return Err(without_memory(log));
    };
    let files = Files::new(alloc, setting.quota);
    let kept = no_kept(alloc);
    match Host::open(
        alloc,
        log,
        again,
        setting,
        kept,
        files,
        NoServer::new(alloc),
    ) {
        Ok(host) => Ok(Started {
            running: Running {
                host,
                sessions,
                carried,
            },
            found,
        }),
        Err(back) => {
            drop(found);
            drop(carried);
            drop(sessions);
            Err(without_memory(log_of(back)))
        },
    }
}

/// The log of a node that did not begin.
fn log_of<D: Disk, X: Server>(back: HostOpen<Fused<D>, X>) -> Log<Fused<D>>
    ensures { result ≡ back.log }
{
    let HostOpen { log, kept, extra } = back;
    drop(kept);
    drop(extra);
    log
}

fn without_memory<D: Disk>(log: Log<Fused<D>>) -> CellOpen<D>
    ensures disk { result.disk ≡ log.disk }
    ensures why { result.why ≡ open_faults.NoMemory }
{
    CellOpen {
        disk: log.into_disk(),
        why: OpenFault::NoMemory,
    }
}

/// What the log says, and what the cell carries from then on.
fn read<D: Disk>(
    alloc: Global,
    log: &Log<D>,
    setting: Setting,
    crashes: List<u64>,
    points: List<Point>,
) -> Result<(Recovered, Carried), NoMemory>
    ensures found { IfOk result (λ read. read.0 ≡ found_in log.now) }
    ensures setting { IfOk result (λ read. read.1.setting ≡ setting_in log.now setting) }
    ensures seen { IfOk result (λ read. seen read.1 ≡ seen_first setting.node crashes points) }
{
    let Ok(points) = watch(alloc, points) else {
        drop(crashes);
        return Err(NoMemory);
    };
    let Ok(chronicle) = Chronicle::new(alloc, setting.node) else {
        drop(crashes);
        drop(points);
        return Err(NoMemory);
    };
    let carried = Carried {
        setting: Setting {
            inc: log.inc(),
            ..setting
        },
        chronicle,
        commands: Map::new(alloc),
        crashes,
        points,
    };
    let Ok(found) = recover(alloc, log.records()) else {
        drop(carried);
        return Err(NoMemory);
    };
    Ok((found, carried))
}

/// The lines that stop the node at an entry, of which none has come.
fn watch(alloc: Global, points: List<Point>) -> Result<Vec<Watched>, NoMemory>
    ensures { IfOk result (λ watched. watched.items ≡ map watched_of points) }
{
    let mut watched = Vec::new(alloc);
    for point in points.into_vec() {
        watched.push(Watched {
            point,
            passed: false,
        })?;
    }
    Ok(watched)
}

/// A node keeps nothing for its clients as a run begins.
fn no_kept(alloc: Global) -> Kept
    ensures { result ≡ no_kept }
{
    Kept {
        labels: List::new(alloc),
        loans: List::new(alloc),
        outcomes: List::new(alloc),
    }
}
