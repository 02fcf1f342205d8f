//! A node that is down: how it stops, and how it starts again.
ghost use Rattle.std.specs.Prelude.{◌≡◌, ◌⊎◌, ◌≤◌, ◌<◌, ◌^◌, ℕ, ◌∷◌, List, [], map, None, IfOk, OnOk};
ghost use Rattle.qs_cell_chronicle.specs.Chronicle.{HasRoom, noted, stamped};
ghost use Rattle.qs_cell.specs.Restart.{AreNew, inc_of, IsRestarted, IsWhyDown, IfDamaged, IfUp, restarted_disk, found_of, restart_of};
ghost use Rattle.qs_cell.specs.Roomy.{IsSetToKeep, RisesRoomy};
ghost use Rattle.qs_cell.specs.Within.{IsLeftDown, Begins};
ghost use Rattle.qs_cell.specs.declared.stopped.Restarted.TheVariants as restarts;
ghost use Rattle.qs_disk.specs.Disk.{EachImage};
ghost use Rattle.qs_disk.specs.Fuse.{GoesOn, mended};
ghost use Rattle.qs_disk.specs.Moments.{Keeps};
ghost use Rattle.qs_node_host.specs.Roomy.{HasRoomyLog};
ghost use Rattle.qs_log_start.specs.Incarnation.{IsLeftOrRaised, IsReopened, HasOneOf};
ghost use Rattle.qs_log.specs.Log.{Stands, records_of};
ghost use Rattle.qs_ops.specs.declared.server.ServerKind.TheVariants as kinds;
ghost use Rattle.qs_record.specs.declared.record.Record.{Record};
ghost use Rattle.qs_node_servers.specs.Kinds.{empty_server};
ghost use Rattle.qs_node_step.specs.Opening.{recovered_of};
ghost use Rattle.qs_node_step.specs.declared.trace.Did.TheVariants as dids;

use crate::running::Running;
use qs_base::{List, NoMemory};
use qs_book_journal::{Act, CrashCause, Found};
use qs_cell_chronicle::Carried;
use qs_cell_peers::Sessions;
use qs_disk::{Disk, Fused};
use qs_log::{Log, OpenFault};
use qs_log_start::{FaultCounts, LogReopen, ReopenFault, begin_again, not_begun};
use qs_node_host::Host;
use qs_node_kept::Kept;
use qs_node_step::{Did, Setting};
use qs_ops::Server;
use qs_restart::{OpenVote, Recovered, recover};
use std::alloc::Global;

/// A node that is down, and what its cell carries.
#[derive(Drop)]
pub struct Stopped<D: Disk> {
    pub disk: Fused<D>,
    /// What the node keeps for its clients.
    pub kept: Kept,
    /// Why it stopped.
    pub cause: CrashCause,
    /// Whether it did as its log had no room for a record, which counts as a want of memory.
    pub is_full: bool,
    pub carried: Carried,
}

/// What comes of a restart.
#[derive(Drop)]
pub enum Restarted<D: Disk, F: Server, X: Server> {
    /// The node is up.
    Up {
        running: Running<D, F, X>,
    },
    /// It is still down.
    Down {
        stopped: Stopped<D>,
        why: ReopenFault,
    },
}

impl<D: Disk> Stopped<D> {
    /// The power is cut, the log of what that leaves is opened and its incarnation raised, and the node begins it with what
    /// the log says and what it kept for its clients. Its files and the further server are empty.
    ///
    /// Of a node that is still down `Tripped` is told exactly where the fuse tripped in this call, which it does at planned
    /// calls alone, `DiskFailed` only where the disk's own count of faults rose, and `Damaged` only where an image that the power cut
    /// left is damaged there.
    pub fn restart<F: Server, X: Server>(
        self,
        alloc: Global,
        files: F,
        extra: X,
    ) -> Restarted<D, F, X>
        requires files { F.state files ≡ empty_server (kinds.Files self.carried.setting.quota) }
        requires extra { X.state extra ≡ empty_server kinds.Nothing }
        requires batch { self.carried.setting.extra ≤ 8 }
        requires keep { self.carried.setting.keep ≤ 144 }
        requires nodes { self.carried.setting.nodes ≤ 8 }
        requires node { self.carried.setting.node.0 < self.carried.setting.nodes }
        ensures restarted { IsRestarted D.fault_count alloc self result }

        // The log of a node that is up.
        ensures reopened { D.told → IfUp result (IsReopened (D.state self.disk.disk)) }
        ensures stands { D.told → IfUp result (λ log. Stands log (D.state log.disk.disk)) }
        ensures found { D.told → IfUp result (λ log. (a b : List Record) → EachImage (HasOneOf a b) (D.state self.disk.disk).now → (records_of log ≡ a) ⊎ (records_of log ≡ b)) }

        // At each moment each image has the records that images had before, and is changed at most by the raise.
        ensures moments { D.told → (a b : List Record) → EachImage (HasOneOf a b) (D.state self.disk.disk).now
            → Keeps (HasOneOf a b) (D.state self.disk.disk) (D.state (restarted_disk result).disk) }
        ensures touched { D.told → Keeps (IsLeftOrRaised (D.state self.disk.disk)) (D.state self.disk.disk) (D.state (restarted_disk result).disk) }
        ensures size { D.byte_count (restarted_disk result).disk ≡ D.byte_count self.disk.disk }
        ensures damaged { D.told → IfDamaged result (D.state self.disk.disk) }

        // What tripped did so at a planned call.
        ensures goes { GoesOn (mended self.disk.fuse) (restarted_disk result).fuse }

        // Where each image has a log with room for all that is kept there, each has one at each moment, and a node that is up is
        // roomy, if what its log says is of transactions.
        ensures left { D.told → (keep : ℕ) → EachImage (HasRoomyLog keep (D.byte_count self.disk.disk)) (D.state self.disk.disk).now
            → Keeps (HasRoomyLog keep (D.byte_count self.disk.disk)) (D.state self.disk.disk) (D.state (restarted_disk result).disk) }
        ensures rooms { D.told → (keep : ℕ) → IsSetToKeep keep self.carried.setting
            → EachImage (HasRoomyLog keep (D.byte_count self.disk.disk)) (D.state self.disk.disk).now → RisesRoomy keep (D.byte_count self.disk.disk) result }
    {
        let Stopped {
            disk,
            kept,
            cause,
            is_full,
            mut carried,
        } = self;
        let before = FaultCounts::of(&disk);
        carried.chronicle.begin_round();
        let rest = Rest {
            kept,
            cause,
            is_full,
            carried,
        };
        match begin_again(alloc, disk) {
            Ok(log) => begin_incarnation(alloc, log, files, extra, rest, before),
            Err(back) => refused(rest, back),
        }
    }
}

/// A node that is down, without its disk.
#[derive(Drop)]
struct Rest {
    kept: Kept,
    cause: CrashCause,
    is_full: bool,
    carried: Carried,
}

impl Rest {
    fn over<D: Disk>(self, disk: Fused<D>) -> Stopped<D>
        ensures { result ≡ record { disk = disk; kept = self.kept; cause = self.cause; is_full = self.is_full; carried = self.carried } }
    {
        let Rest {
            kept,
            cause,
            is_full,
            carried,
        } = self;
        Stopped {
            disk,
            kept,
            cause,
            is_full,
            carried,
        }
    }
}

/// The node begins the incarnation of its log, unless memory is refused.
fn begin_incarnation<D: Disk, F: Server, X: Server>(
    alloc: Global,
    log: Log<Fused<D>>,
    files: F,
    extra: X,
    rest: Rest,
    before: FaultCounts,
) -> Restarted<D, F, X>
    requires files { F.state files ≡ empty_server (kinds.Files rest.carried.setting.quota) }
    requires extra { X.state extra ≡ empty_server kinds.Nothing }
    requires batch { rest.carried.setting.extra ≤ 8 }
    requires keep { rest.carried.setting.keep ≤ 144 }
    requires nodes { rest.carried.setting.nodes ≤ 8 }
    requires node { rest.carried.setting.node.0 < rest.carried.setting.nodes }
    requires inc { inc_of log < 2 ^ 62 }
    ensures begins { Begins D.fault_count alloc log rest before result }
    ensures up { IfUp result (λ new. new ≡ log) }
    ensures disk { restarted_disk result ≡ log.disk }
{
    let inc = log.inc();
    let mut rest = rest;
    let Ok(sessions) = new_sessions(alloc, &rest.carried.setting, inc) else {
        drop(files);
        drop(extra);
        return without_memory(rest, before, log);
    };
    let (found, act) = match read(alloc, &mut rest.carried, &log) {
        Ok(read) => read,
        Err(NoMemory) => {
            drop(files);
            drop(extra);
            drop(sessions);
            return without_memory(rest, before, log);
        },
    };
    let Rest {
        kept,
        cause,
        is_full,
        carried,
    } = rest;
    let setting = Setting {
        inc,
        ..carried.setting
    };
    match Host::open(alloc, log, found, setting, kept, files, extra) {
        Ok(host) => Restarted::Up {
            running: Running {
                host,
                sessions,
                carried: risen(carried, setting, act),
            },
        },
        Err(back) => {
            drop(act);
            drop(sessions);
            let rest = Rest {
                kept: back.kept,
                cause,
                is_full,
                carried,
            };
            without_memory(rest, before, back.log)
        }
    }
}

/// The sessions of the node in an incarnation, which has met nobody.
fn new_sessions(alloc: Global, setting: &Setting, inc: u64) -> Result<Sessions, NoMemory>
    requires nodes { setting.now.nodes ≤ 8 }
    requires node { setting.now.node.0 < setting.now.nodes }
    requires inc { inc < 2 ^ 62 }
    ensures { IfOk result (AreNew (record setting.now { inc = inc })) }
{
    Sessions::new(alloc, setting.node, setting.nodes, inc)
}

fn without_memory<D: Disk, F: Server, X: Server>(
    rest: Rest,
    before: FaultCounts,
    log: Log<Fused<D>>,
) -> Restarted<D, F, X>
    ensures { IsLeftDown D.fault_count rest before log.disk result }
{
    refused(
        rest,
        not_begun(before, log.into_disk(), OpenFault::NoMemory),
    )
}

/// The node is still down.
fn refused<D: Disk, F: Server, X: Server>(rest: Rest, back: LogReopen<D>) -> Restarted<D, F, X>
    ensures { result ≡ restarts.Down (record { disk = back.disk; kept = rest.kept; cause = rest.cause; is_full = rest.is_full; carried = rest.carried }) back.why }
{
    Restarted::Down {
        stopped: rest.over(back.disk),
        why: back.why,
    }
}

/// What the log says, and the entry that tells it, for which room is made.
fn read<D: Disk>(
    alloc: Global,
    carried: &mut Carried,
    log: &Log<D>,
) -> Result<(Recovered, Act), NoMemory>
    ensures found { IfOk result (λ read. read.0 ≡ recovered_of (records_of log.now)) }
    ensures act { IfOk result (λ read. read.1 ≡ restart_of log.now.slots.present.value.inc (recovered_of (records_of log.now))) }
    ensures room { OnOk result (HasRoom 1 1 carried.new.chronicle) }
    ensures told { carried.new.chronicle.told ≡ carried.old.chronicle.told }
    ensures commands { carried.new.commands ≡ carried.old.commands }
    ensures crashes { carried.new.crashes ≡ carried.old.crashes }
    ensures points { carried.new.points ≡ carried.old.points }
    ensures setting { carried.new.setting ≡ carried.old.setting }
{
    carried.chronicle.make_room(1, 1)?;
    let found = recover(alloc, log.records())?;
    let Ok(act) = restart_of(alloc, log.inc(), &found) else {
        drop(found);
        return Err(NoMemory);
    };
    Ok((found, act))
}

/// What is carried takes the restart in.
fn risen(carried: Carried, setting: Setting, act: Act) -> Carried
    requires room { HasRoom 1 1 carried.chronicle }
    ensures told { result.chronicle.told ≡ noted (dids.Restart setting.inc) [] (act ∷ []) None (stamped carried.chronicle.told) }
    ensures commands { result.commands ≡ carried.commands }
    ensures crashes { result.crashes ≡ carried.crashes }
    ensures points { result.points ≡ carried.points }
    ensures setting { result.setting ≡ setting }
{
    let mut carried = carried;
    carried.setting = setting;
    carried.chronicle.next_stamp();
    carried
        .chronicle
        .note_one(Did::Restart { inc: setting.inc }, act);
    carried
}

/// What a restart tells of the log.
fn restart_of(alloc: Global, inc: u64, found: &Recovered) -> Result<Act, NoMemory>
    ensures { IfOk result (λ act. act ≡ restart_of inc found.now) }
{
    Ok(Act::Restart {
        inc,
        pend: found_votes(alloc, found.votes.as_slice())?,
        done: found.committed.copy()?,
    })
}

fn found_votes(alloc: Global, votes: &[OpenVote]) -> Result<List<Found>, NoMemory>
    ensures { IfOk result (λ found. found ≡ map found_of votes.now) }
{
    let mut found = List::new(alloc);
    for vote in votes {
        found.push(Found {
            tid: vote.tid,
            server: vote.server,
            covers: vote.covers,
        })?;
    }
    Ok(found)
}
