//! A node that is up, or down.
ghost use Rattle.std.specs.Prelude.{◌≡◌, ℕ, [], OnOk};
ghost use Rattle.qs_cell.specs.State.{carried_of, cause_of, disk_of, is_queued, has_undecided, is_settled_node, IsSeenAs, LogStands, IsAllowed, StartsAgain, stopped_state, state_after, answer_of, answer_after};
ghost use Rattle.qs_cell.specs.Acts.{in_act_as};
ghost use Rattle.qs_cell.specs.Hearing.{HasTakenIn, SetsAside, TakesIn};
ghost use Rattle.qs_cell.specs.Visits.{MakesIn};
ghost use Rattle.qs_cell.specs.Restart.{in_round_as};
ghost use Rattle.qs_cell.specs.Roomy.{ComesNewTo, IsRoomyNode, IsSetToKeep, StartsRoomy};
ghost use Rattle.qs_disk.specs.Disk.{EachImage};
ghost use Rattle.qs_node_host.specs.Roomy.{HasRoomyLog};
ghost use Rattle.qs_cell_chronicle.specs.Chronicle.{HasRoom};
ghost use Rattle.qs_packet.specs.Grammar.{IsPacket};

use crate::running::{Fate, Running};
use crate::stopped::{Restarted, Stopped};
use core::mem;
use qs_base::{List, NoMemory};
use qs_book_journal::{CrashCause, Entry};
use qs_cell_chronicle::{Carried, Occasion};
use qs_cell_peers::Heard;
use qs_disk::{Disk, Fused};
use qs_files::Files;
use qs_log_start::ReopenFault;
use qs_node_step::{ClientAnswer, Step};
use qs_ops::NoServer;
use qs_packet::Packet;
use std::alloc::Global;
use thiserror::Error;

/// A node that is up, or down.
#[derive(Drop)]
pub enum CellState<D: Disk> {
    Up {
        running: Running<D, Files, NoServer>,
    },
    Down {
        stopped: Stopped<D>,
    },
}

/// Why a node that is down could not be started again.
#[derive(Clone, Copy, Debug, Error)]
pub enum RestartFault {
    /// The disk itself failed a call.
    #[error("a disk call failed")]
    DiskFailed,
    /// The log is damaged at that byte.
    #[error("the log is damaged at byte {at}")]
    Damaged { at: u64 },
    /// Memory was refused, or a fault of the disk is not borne out by its count.
    #[error("memory was refused")]
    NoMemory,
}

impl<D: Disk> CellState<D> {
    /// What the cell carries.
    pub fn carried(&self) -> &Carried
        ensures { result.now ≡ carried_of self.now }
    {
        match self {
            CellState::Up { running } => &running.carried,
            CellState::Down { stopped } => &stopped.carried,
        }
    }

    /// Why the node is down; `None` exactly where it is up.
    pub fn cause(&self) -> Option<CrashCause>
        ensures { result ≡ cause_of self.now }
    {
        match self {
            CellState::Up { .. } => None,
            CellState::Down { stopped } => Some(stopped.cause),
        }
    }

    /// Whether some queue of the node has an item.
    pub fn queued(&self) -> bool
        ensures { result ≡ is_queued self.now }
    {
        match self {
            CellState::Up { running } => running.host.queued(),
            CellState::Down { .. } => false,
        }
    }

    /// Whether the node is up and the home of a transaction that it has not decided.
    pub fn undecided(&self) -> bool
        ensures { result ≡ has_undecided self.now }
    {
        match self {
            CellState::Up { running } => running.host.undecided(),
            CellState::Down { .. } => false,
        }
    }

    /// Whether the node is up and has nothing left to do for a transaction.
    pub fn settled(&self) -> bool
        ensures { result ≡ is_settled_node self.now }
    {
        match self {
            CellState::Up { running } => running.host.settled(),
            CellState::Down { .. } => false,
        }
    }

    /// Room for an entry and a step, as those of a crash. `NoMemory` comes where memory was refused.
    pub fn make_room(&mut self) -> Result<(), NoMemory>
        ensures same { IsSeenAs (λ s. s) self.old self.new }
        ensures room { OnOk result (HasRoom 1 1 (carried_of self.new).chronicle) }
    {
        match self {
            CellState::Up { running } => running.carried.chronicle.make_room(1, 1),
            CellState::Down { stopped } => stopped.carried.chronicle.make_room(1, 1),
        }
    }

    /// One more visit.
    pub fn begin_round(&mut self)
        ensures { IsSeenAs in_round_as self.old self.new }
    {
        match self {
            CellState::Up { running } => running.carried.chronicle.begin_round(),
            CellState::Down { stopped } => stopped.carried.chronicle.begin_round(),
        }
    }

    /// One more act.
    pub fn begin_act(&mut self)
        ensures { IsSeenAs in_act_as self.old self.new }
    {
        match self {
            CellState::Up { running } => running.carried.chronicle.begin_act(),
            CellState::Down { stopped } => stopped.carried.chronicle.begin_act(),
        }
    }

    /// The event comes to the node, if it is up, and its answers go out. Room for a crash is to be made before.
    pub fn event(&mut self, alloc: Global, occasion: Occasion) -> List<ClientAnswer>
        requires stands { D.told → LogStands D.state self.old }
        requires room { HasRoom 1 1 (carried_of self.old).chronicle }
        ensures makes { MakesIn D.told D.state D.fault_count D.byte_count occasion self.old self.new result }
        ensures stands { D.told → LogStands D.state self.new }
        ensures setting { (carried_of self.new).setting ≡ (carried_of self.old).setting }
        ensures rooms { (keep : ℕ) → IsRoomyNode keep (D.byte_count (disk_of self.old).disk) self.old
            → ComesNewTo (D.byte_count (disk_of self.old).disk) occasion self.old → IsRoomyNode keep (D.byte_count (disk_of self.old).disk) self.new }
    {
        let fate = match self {
            CellState::Up { running } => running.event(occasion),
            CellState::Down { .. } => {
                drop(occasion);
                return List::new(alloc);
            }
        };
        match fate {
            Fate::Whole { answers } => answers,
            Fate::Followed { answers } => {
                self.stop(CrashCause::Plan, false);
                answers
            }
            Fate::Replaced { cause } => {
                self.stop(cause, false);
                List::new(alloc)
            }
            Fate::CutOff { cause, is_full } => {
                self.stop(cause, is_full);
                List::new(alloc)
            }
        }
    }

    /// The packet comes to the node, if it is up: the session with its node takes it in, and it is an event, be it of the node or of
    /// the cell alone; its answers go out. One that does not come from another node to this one is dropped. Room for a crash is to be
    /// made before.
    pub fn hear(&mut self, alloc: Global, packet: Packet) -> List<ClientAnswer>
        requires packet { IsPacket packet }
        requires stands { D.told → LogStands D.state self.old }
        requires room { HasRoom 1 1 (carried_of self.old).chronicle }
        ensures takes { TakesIn D.told D.state D.fault_count D.byte_count packet self.old self.new result }
        ensures stands { D.told → LogStands D.state self.new }
        ensures setting { (carried_of self.new).setting ≡ (carried_of self.old).setting }
    {
        match self.take_in(&packet) {
            Heard::Message => self.event(alloc, Occasion::Message { packet }),
            Heard::Restarted { old } => self.event(alloc, Occasion::Restarted { packet, old }),
            Heard::Aside => self.set_aside(alloc, packet),
            Heard::Strange => {
                drop(packet);
                List::new(alloc)
            }
        }
    }

    /// The sessions of a node that is up take the packet in.
    fn take_in(&mut self, packet: &Packet) -> Heard
        requires packet { IsPacket packet.now }
        ensures { HasTakenIn packet.now self.old self.new result }
    {
        match self {
            CellState::Up { running } => running.sessions.hear(packet),
            CellState::Down { .. } => Heard::Strange,
        }
    }

    /// A packet that changes its session at most.
    fn set_aside(&mut self, alloc: Global, packet: Packet) -> List<ClientAnswer>
        requires room { HasRoom 1 1 (carried_of self.old).chronicle }
        ensures sets { SetsAside packet self.old self.new result }
        ensures stands { D.told → LogStands D.state self.old → LogStands D.state self.new }
    {
        let cause = match self {
            CellState::Up { running } => running.set_aside(packet),
            CellState::Down { .. } => {
                drop(packet);
                return List::new(alloc);
            },
        };
        let Some(cause) = cause else {
            return List::new(alloc);
        };
        self.stop(cause, false);
        List::new(alloc)
    }

    /// A node that is up is down from now on.
    fn stop(&mut self, cause: CrashCause, is_full: bool)
        ensures { self.new ≡ stopped_state cause is_full self.old }
    {
        mem::replace_with(
            self,
            (cause, is_full),
            |state, why|
                ensures { result.0 ≡ stopped_state why.0 why.1 state }
            { (state.into_stopped(why.0, why.1), ()) },
        );
    }

    /// It takes no memory.
    fn into_stopped(self, cause: CrashCause, is_full: bool) -> CellState<D>
        ensures { result ≡ stopped_state cause is_full self }
    {
        match self {
            CellState::Up { running } => CellState::Down {
                stopped: running.into_stopped(cause, is_full),
            },
            down => down,
        }
    }

    /// A node that is down starts again, and the answer says whether it is up. A node that is up is left alone.
    pub fn restart(self, alloc: Global) -> (CellState<D>, Result<bool, RestartFault>)
        requires stands { D.told → LogStands D.state self }
        requires allowed { IsAllowed (carried_of self) }
        ensures starts { StartsAgain D.told D.state D.fault_count D.byte_count alloc self result.0 result.1 }
        ensures stands { D.told → LogStands D.state result.0 }
        ensures allowed { IsAllowed (carried_of result.0) }
        ensures rooms { D.told → (keep : ℕ) → IsSetToKeep keep (carried_of self).setting → IsRoomyNode keep (D.byte_count (disk_of self).disk) self
            → EachImage (HasRoomyLog keep (D.byte_count (disk_of self).disk)) (D.state (disk_of self).disk).now
            → StartsRoomy keep (D.byte_count (disk_of self).disk) result.0 }
    {
        let stopped = match self {
            CellState::Up { .. } => return (self, Ok(true)),
            CellState::Down { stopped } => stopped,
        };
        let files = Files::new(alloc, stopped.carried.setting.quota);
        after_restart(stopped.restart(alloc, files, NoServer::new(alloc)))
    }

    /// The disk of its log.
    pub fn into_disk(self) -> Fused<D>
        ensures { result ≡ disk_of self }
    {
        match self {
            CellState::Up { running } => {
                let Running {
                    host,
                    sessions,
                    carried,
                } = running;
                drop(sessions);
                drop(carried);
                let (disk, _, _) = host.into_parts();
                disk
            }
            CellState::Down { stopped } => stopped.disk,
        }
    }

    /// The disk of its log, and the entries and the steps so far, in order. It takes no memory.
    pub fn into_parts(self) -> (Fused<D>, List<Entry>, List<Step>)
        ensures disk { result.0 ≡ disk_of self }
        ensures journal { result.1 ≡ (carried_of self).chronicle.told.journal }
        ensures trace { result.2 ≡ (carried_of self).chronicle.told.trace }
    {
        match self {
            CellState::Up { running } => {
                let Running { host, carried, .. } = running;
                let (disk, _, _) = host.into_parts();
                parts(disk, carried)
            }
            CellState::Down { stopped } => parts(stopped.disk, stopped.carried),
        }
    }

    /// What the disk itself has counted.
    pub fn own_faults(&self) -> u64
        ensures { result ≡ D.fault_count (disk_of self.now).disk }
    {
        match self {
            CellState::Up { running } => running.host.disk().own_faults(),
            CellState::Down { stopped } => stopped.disk.own_faults(),
        }
    }
}

/// The disk, and the entries and the steps so far, in order.
fn parts<D: Disk>(disk: Fused<D>, carried: Carried) -> (Fused<D>, List<Entry>, List<Step>)
    ensures disk { result.0 ≡ disk }
    ensures journal { result.1 ≡ carried.chronicle.told.journal }
    ensures trace { result.2 ≡ carried.chronicle.told.trace }
{
    let (journal, trace) = carried.chronicle.into_parts();
    (disk, journal, trace)
}

fn after_restart<D: Disk>(
    restarted: Restarted<D, Files, NoServer>,
) -> (CellState<D>, Result<bool, RestartFault>)
    ensures state { result.0 ≡ state_after restarted }
    ensures answer { result.1 ≡ answer_after restarted }
{
    match restarted {
        Restarted::Up { running } => (CellState::Up { running }, Ok(true)),
        Restarted::Down { stopped, why } => (CellState::Down { stopped }, answer_of(why)),
    }
}

/// What is answered of a node that is still down.
fn answer_of(why: ReopenFault) -> Result<bool, RestartFault>
    ensures { result ≡ answer_of why }
{
    match why {
        ReopenFault::Tripped => Ok(false),
        ReopenFault::DiskFailed => Err(RestartFault::DiskFailed),
        ReopenFault::Damaged { at } => Err(RestartFault::Damaged { at }),
        ReopenFault::NoMemory => Err(RestartFault::NoMemory),
    }
}
