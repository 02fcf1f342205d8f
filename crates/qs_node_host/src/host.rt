//! A node over its log.
ghost use Rattle.std.specs.Prelude.{◌≡◌, ◌≢◌, ◌≤◌, ℕ, IfOk, IfErr, OnOk, OnErr, Err};
ghost use Rattle.qs_base.specs.Causes.{Rose};
ghost use Rattle.qs_disk.specs.Moments.{Keeps};
ghost use Rattle.qs_ipc.specs.Ipc as ipc;
ghost use Rattle.qs_log.specs.Log.{Stands, records_of};
ghost use Rattle.qs_ops.specs.Server.{AreContents, cleared};
ghost use Rattle.qs_ops.specs.declared.server.ServerKind.TheVariants as kinds;
ghost use Rattle.qs_node_servers.specs.Kinds.{empty_server};
ghost use Rattle.qs_node_servers.specs.Servers.{server_at};
ghost use Rattle.qs_slot.specs.Slot.{SayTheSame};
ghost use Rattle.qs_node_step.specs.Counted.{is_all_counted};
ghost use Rattle.qs_node_step.specs.Opening.{recovered_of};
ghost use Rattle.qs_node_step.specs.Step.{accept};
ghost use Rattle.qs_tm.specs.Manager as tm;
ghost use Rattle.qs_node_host.specs.Host.{effects_at, worked_node, is_settled, opened_host, AreUnended, HasBatch, IsLogAfter, IsOldOrAfter};
ghost use Rattle.qs_node_host.specs.Roomy.{BeginsNewAt, HasRoomyLog, IsRoomyHost, IsWorkedRoomy, LacksRoom, OpensRoomy};
ghost use Rattle.qs_node_host.specs.Spelled.{AreSpelled};
ghost use Rattle.qs_node_host.specs.declared.fault.HostFault.TheVariants.{Disk as OfDisk, NoRoom as OfRoom};

use crate::appending::append_and_force;
use crate::fault::HostFault;
use crate::spelled::are_spelled;
use qs_base::{NoMemory, ServerNo};
use qs_disk::Disk;
use qs_log::Log;
use qs_node::{Node, NodeOpen};
use qs_node_kept::{Keeping, Kept};
use qs_node_room::Unended;
use qs_node_step::{Effects, Event, Setting};
use qs_ops::{Changes, Server};
use qs_restart::Recovered;
use std::alloc::Global;
use std::marker::Model;

/// A node over its log.
#[derive(Drop)]
pub struct Host<D: Disk, F: Server, X: Server> {
    node: Node<F, X>,
    // In a box, since a host is handed on by value as its node starts and stops.
    logged: Box<Logged<D>>,
}

/// A log, and which of its transactions are not ended.
#[derive(Drop)]
struct Logged<D: Disk> {
    log: Log<D>,
    unended: Unended,
}

/// What a node that could not be opened hands back.
#[derive(Drop)]
pub struct HostOpen<D: Disk, X: Server> {
    pub log: Log<D>,
    pub kept: Kept,
    pub extra: X,
}

impl<D: Disk, F: Server, X: Server> Model for Host<D, F, X> {
    ghost use Rattle.qs_node_host.specs.Host.{HostValue, AreUnended};

    ghost Value = { HostValue D };

    ghost view = { λ h. record { node = h.node; log = h.logged.value.log } };

    ghost invariant = { λ h. AreUnended h.logged.value.unended h.logged.value.log };
}

impl<D: Disk, F: Server, X: Server> Host<D, F, X> {
    /// A node begins an incarnation over its log, which says `found`: it keeps `kept` for its clients. Its files and the
    /// further server are empty. For want of memory alone the log, what it keeps for its clients and the further server are
    /// handed back. Over a log that has room for all that is kept there the host is roomy.
    pub fn open(
        alloc: Global,
        log: Log<D>,
        found: Recovered,
        setting: Setting,
        kept: Kept,
        files: F,
        extra: X,
    ) -> Result<Host<D, F, X>, HostOpen<D, X>>
        requires found { found ≡ recovered_of (records_of log) }
        requires files { F.state files ≡ empty_server (kinds.Files setting.quota) }
        requires extra { X.state extra ≡ empty_server kinds.Nothing }
        requires batch { setting.extra ≤ 8 }
        requires keep { setting.keep ≤ 144 }
        ensures ok { IfOk result (λ host. host ≡ opened_host alloc setting kept log) }
        ensures roomy { (keep : ℕ) → OpensRoomy keep (D.byte_count log.disk) setting log → IfOk result (IsRoomyHost keep (D.byte_count log.disk)) }
        ensures log { IfErr result (λ back. back.log ≡ log) }
        ensures kept { IfErr result (λ back. back.kept ≡ kept) }
        ensures extra { IfErr result (λ back. X.state back.extra ≡ X.state extra) }
    {
        let unended = match Unended::of(alloc, log.records().as_slice()) {
            Ok(unended) => unended,
            Err(NoMemory) => return Err(HostOpen { log, kept, extra }),
        };
        let logged = match Box::new(alloc, Logged { log, unended }) {
            Ok(logged) => logged,
            Err(failed) => {
                let Logged { log, .. } = failed.value;
                return Err(HostOpen { log, kept, extra });
            }
        };
        match Node::new(alloc, found, setting, kept, files, extra) {
            Ok(node) => Ok(Host { node, logged }),
            Err(NodeOpen { kept, extra }) => {
                let Logged { log, .. } = Box::into_inner(logged);
                Err(HostOpen { log, kept, extra })
            }
        }
    }

    /// Works out what the event brings about: each record and each message of it has a spelling. Nothing of it is done: the
    /// log stays as it is, and the node waits for `carry_out`. Over a roomy host the log has room for what the event brings
    /// about.
    ///
    /// After `NoMemory`, its only error, only `into_parts` is to be called. It comes for want of memory, and where a record or
    /// a message has no spelling: that no step makes such a one is not proved, since it rests on how long a log can be.
    pub fn work_out(&mut self, event: Event) -> Result<Effects, NoMemory>
        ensures spelled { IfOk result AreSpelled }
        ensures effects { IfOk result (λ out. out ≡ effects_at (D.byte_count self.old.log.disk) self.old event) }
        ensures node { OnOk result (self.new.node ≡ worked_node (D.byte_count self.old.log.disk) self.old event) }
        ensures room { (keep : ℕ) → IsRoomyHost keep (D.byte_count self.old.log.disk) self.old → BeginsNewAt (D.byte_count self.old.log.disk) self.old event
            → IfOk result (IsWorkedRoomy keep (D.byte_count self.old.log.disk) self.new) }
        ensures log { self.new.log ≡ self.old.log }
        ensures saved { self.new.node.kept.saved ≡ self.old.node.kept.saved }
    {
        let logged = &*self.logged;
        let free = logged
            .unended
            .free_room(logged.log.room(), self.node.setting().keep);
        let out = self.node.step(event, free)?;
        if !are_spelled(&out) {
            return Err(NoMemory);
        }
        Ok(out)
    }

    /// Does with the log what was worked out: its records are appended, and forced where they are to be. Then the step
    /// counts. Where it is cut off, the node does not count it, and only `disk` and `into_parts` are of use: on the disk
    /// stand the records of before, or, of a step that forces them, those of after it.
    ///
    /// `Disk` comes only where a force is due, something waits for it, and the disk's count of faults rose. `NoRoom` comes only
    /// where the log has no room for a record as its turn comes, which is never so of a step that a roomy host worked out; and
    /// the host is roomy then after the step.
    pub fn carry_out(&mut self, out: &Effects) -> Result<(), HostFault>
        requires spelled { AreSpelled out.now }
        requires stands { D.told → Stands self.old.log (D.state self.old.log.disk) }
        ensures node { OnOk result (self.new.node ≡ accept self.old.node) }
        ensures log { OnOk result (IsLogAfter out.now self.old.log self.new.log) }
        ensures stands { D.told → OnOk result (Stands self.new.log (D.state self.new.log.disk)) }

        // At each moment, also of a step that is cut off; the slots say the same.
        ensures moments { D.told → Keeps (IsOldOrAfter out.now self.old.log) (D.state self.old.log.disk) (D.state self.new.log.disk) }
        ensures header { D.told → Keeps (SayTheSame (D.state self.old.log.disk).content) (D.state self.old.log.disk) (D.state self.new.log.disk) }
        ensures size { D.byte_count self.new.log.disk ≡ D.byte_count self.old.log.disk }
        ensures leads { D.leads_to self.old.log.disk self.new.log.disk }
        ensures later { D.fault_count self.old.log.disk ≤ D.fault_count self.new.log.disk }

        // What is left where it is cut off, and why it is.
        ensures kept { OnErr result (self.new.node ≡ self.old.node) }
        ensures cause { result ≡ Err OfDisk → Rose (D.fault_count self.old.log.disk) (D.fault_count self.new.log.disk) }
        ensures batch { result ≡ Err OfDisk → HasBatch out.now self.old.log }
        ensures full { result ≡ Err OfRoom → LacksRoom (D.byte_count self.old.log.disk) self.old.log out.now.records }

        // Of a step that a roomy host worked out.
        ensures room { (keep : ℕ) → IsWorkedRoomy keep (D.byte_count self.old.log.disk) self.old out.now → result ≢ Err OfRoom }
        ensures roomy { (keep : ℕ) → IsWorkedRoomy keep (D.byte_count self.old.log.disk) self.old out.now
            → OnOk result (IsRoomyHost keep (D.byte_count self.old.log.disk) self.new) }
        ensures left { D.told → (keep : ℕ) → IsWorkedRoomy keep (D.byte_count self.old.log.disk) self.old out.now
            → Keeps (HasRoomyLog keep (D.byte_count self.old.log.disk)) (D.state self.old.log.disk) (D.state self.new.log.disk) }
    {
        log_out(&mut self.logged, out)?;
        self.node.accept();
        Ok(())
    }

    /// The disk, what the node kept for its clients at its last whole step, or was handed where there was none, and the
    /// further server, emptied. It takes no memory.
    pub fn into_parts(self) -> (D, Kept, X)
        ensures disk { result.0 ≡ self.log.disk }
        ensures kept { result.1 ≡ self.node.kept.saved }
        ensures extra { X.state result.2 ≡ cleared self.node.servers.extra }
    {
        let Host { node, logged } = self;
        let (kept, extra) = node.into_parts();
        let Logged { log, .. } = Box::into_inner(logged);
        (log.into_disk(), kept, extra)
    }

    /// Changes that give the committed contents of the server again where they are applied in order to empty contents; none
    /// of a server whose changes no log keeps.
    pub fn contents(&self, server: ServerNo) -> Result<Changes, NoMemory>
        ensures { IfOk result (λ changes. AreContents (server_at self.now.node.servers server).kind (server_at self.now.node.servers server).table changes) }
    {
        self.node.contents(server)
    }

    /// What the node was made with.
    pub fn setting(&self) -> &Setting
        ensures { result.now ≡ self.now.node.setting }
    {
        self.node.setting()
    }

    /// What the node keeps for its clients.
    pub fn kept(&self) -> &Keeping
        ensures { result.now ≡ self.now.node.kept }
    {
        self.node.kept()
    }

    /// Whether some queue of the node has an item.
    pub fn queued(&self) -> bool
        ensures { result ≡ ipc.queued self.now.node.queues }
    {
        self.node.queued()
    }

    /// Whether all that waits at the node's servers can be counted as it is served.
    pub fn may_serve(&self) -> bool
        ensures { result ≡ is_all_counted self.now.node }
    {
        self.node.may_serve()
    }

    /// Whether the node is the home of a transaction that it has not decided.
    pub fn undecided(&self) -> bool
        ensures { result ≡ tm.has_undecided self.now.node.manager }
    {
        self.node.undecided()
    }

    /// Whether the node is the home of no transaction that it has not decided, its log has a record of none that is not
    /// ended there, and no server of it holds changes or reads of one, or is still to learn an outcome.
    pub fn settled(&self) -> bool
        ensures { result ≡ is_settled self.now }
    {
        !self.undecided() && (self.logged.unended.is_empty() && !self.node.pending())
    }

    /// The disk of its log.
    pub fn disk(&self) -> &D
        ensures { result.now ≡ self.now.log.disk }
    {
        self.logged.log.disk()
    }
}

/// The records wait, and are forced where they are to be. After a fault only the disk of the log is of use.
fn log_out<D: Disk>(logged: &mut Logged<D>, out: &Effects) -> Result<(), HostFault>
    requires spelled { AreSpelled out.now }
    requires stands { D.told → Stands logged.old.log (D.state logged.old.log.disk) }
    ensures log { OnOk result (IsLogAfter out.now logged.old.log logged.new.log) }
    ensures unended { AreUnended logged.old.unended logged.old.log → AreUnended logged.new.unended logged.new.log }
    ensures stands { D.told → OnOk result (Stands logged.new.log (D.state logged.new.log.disk)) }
    ensures moments { D.told → Keeps (IsOldOrAfter out.now logged.old.log) (D.state logged.old.log.disk) (D.state logged.new.log.disk) }
    ensures header { D.told → Keeps (SayTheSame (D.state logged.old.log.disk).content) (D.state logged.old.log.disk) (D.state logged.new.log.disk) }
    ensures size { D.byte_count logged.new.log.disk ≡ D.byte_count logged.old.log.disk }
    ensures leads { D.leads_to logged.old.log.disk logged.new.log.disk }
    ensures later { D.fault_count logged.old.log.disk ≤ D.fault_count logged.new.log.disk }
    ensures cause { result ≡ Err OfDisk → Rose (D.fault_count logged.old.log.disk) (D.fault_count logged.new.log.disk) }
    ensures batch { result ≡ Err OfDisk → HasBatch out.now logged.old.log }
    ensures full { result ≡ Err OfRoom → LacksRoom (D.byte_count logged.old.log.disk) logged.old.log out.now.records }
{
    append_and_force(&mut logged.log, &mut logged.unended, out)
}
