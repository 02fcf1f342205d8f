//! The servers of a node.
ghost use Rattle.std.specs.Prelude.{◌≡◌, true, false, IfOk, OnOk, OnErr, Some};
ghost use Rattle.qs_ops.specs.Server.{reply_of, after_serving, vote_of, after_vote, after_notice, changes_in, after_keeping, AreContents, cleared, holds_some};
ghost use Rattle.qs_ops.specs.Servers.{is_client_no};
ghost use Rattle.qs_ops.specs.Table.{no_table};
ghost use Rattle.qs_ops.specs.Timers.{ticked};
ghost use Rattle.qs_ipc.specs.Queue.{is_for};
ghost use Rattle.qs_node_servers.specs.Kinds.{AreKinds, new_servers, taken_in};
ghost use Rattle.qs_node_servers.specs.Servers.{server_at, with_server, timers_no};

use qs_audit::Audit;
use qs_base::{NoMemory, NodeNo, ServerNo, Tid};
use qs_names::Names;
use qs_oneshot::{Scratch, Timers, Windows};
use qs_ops::servers::{AUDIT, FILES, NAMES, SCRATCH, TIMERS, WINDOWS};
use qs_ops::{Changes, Notice, Op, Reply, Server, Vote};
use std::alloc::Global;
use std::marker::Model;

/// The most bytes that are taken beside those of a Prepare record.
const MOST_FRAME: u64 = 4_294_967_295;

/// The servers of a node: files, the further server, and those between them. A call that names
/// another number than one of theirs is for the further server.
#[derive(Drop)]
pub struct Servers<F: Server, X: Server> {
    files: F,
    audit: Audit,
    names: Names,
    timers: Timers,
    windows: Windows,
    scratch: Scratch,
    extra: X,
}

impl<F: Server, X: Server> Model for Servers<F, X> {
    ghost use Rattle.qs_node_servers.specs.Kinds.{AreKinds};
    ghost use Rattle.qs_node_servers.specs.Servers.{ServersValue};

    ghost Value = { ServersValue };

    ghost view = { λ s. record {
      files = F.state s.files;
      audit = ⟦<Audit as Server>⟧.state s.audit;
      names = ⟦<Names as Server>⟧.state s.names;
      timers = ⟦<Timers as Server>⟧.state s.timers;
      windows = ⟦<Windows as Server>⟧.state s.windows;
      scratch = ⟦<Scratch as Server>⟧.state s.scratch;
      extra = X.state s.extra;
    } };

    ghost invariant = { λ s. AreKinds (F.state s.files) (X.state s.extra) };
}

impl<F: Server, X: Server> Servers<F, X> {
    /// These files and that further server, and the other servers with nothing. It takes no memory.
    pub fn new(alloc: Global, files: F, extra: X) -> Servers<F, X>
        requires { AreKinds (F.state files) (X.state extra) }
        ensures { result ≡ new_servers (F.state files) (X.state extra) }
    {
        Servers {
            files,
            audit: Audit::new(alloc),
            names: Names::new(alloc),
            timers: Timers::new(alloc),
            windows: Windows::new(alloc),
            scratch: Scratch::new(alloc),
            extra,
        }
    }

    /// Empty files and an empty audit server take in the committed changes that a log keeps of them, each
    /// in order. The further server stays as it was, also after a refusal.
    pub fn take_in(&mut self, files: &Changes, audit: &Changes) -> Result<(), NoMemory>
        requires files { self.old.files.table ≡ no_table }
        requires audit { self.old.audit.table ≡ no_table }
        ensures ok { OnOk result (self.new ≡ record self.old { files = taken_in files.now self.old.files; audit = taken_in audit.now self.old.audit }) }
        ensures extra { self.new.extra ≡ self.old.extra }
    {
        take_in(&mut self.files, files)?;
        take_in(&mut self.audit, audit)
    }

    /// The server serves an operation of its own for the transaction, and replies. After a refusal
    /// all are as they were.
    pub fn serve(&mut self, server: ServerNo, tid: Tid, op: &Op) -> Result<Reply, NoMemory>
        requires own { is_for server op.now ≡ true }
        requires no_client { is_client_no server.0 ≡ false }
        ensures reply { IfOk result (λ reply. reply_of (server_at self.old server) tid op.now ≡ Some reply) }
        ensures ok { IfOk result (λ reply. self.new ≡ with_server server (λ value. after_serving value tid op.now reply) self.old) }
        ensures err { OnErr result (self.new ≡ self.old) }
    {
        match server {
            FILES => self.files.serve(tid, op),
            AUDIT => self.audit.serve(tid, op),
            NAMES => self.names.serve(tid, op),
            TIMERS => self.timers.serve(tid, op),
            WINDOWS => self.windows.serve(tid, op),
            SCRATCH => self.scratch.serve(tid, op),
            _ => self.extra.serve(tid, op),
        }
    }

    /// The server votes on the commit of the transaction, where the log has `free` bytes of room, and
    /// `frame` are taken beside the bytes of a Prepare record. A server that can't keep a commit back
    /// votes read-only, which ends the reads of the transaction there. A frame of 4,294,967,296 bytes or
    /// more is a refusal of memory too. After a refusal all are as they were.
    pub fn vote(
        &mut self,
        server: ServerNo,
        tid: Tid,
        free: u64,
        frame: u64,
    ) -> Result<Vote, NoMemory>
        ensures vote { IfOk result (λ ballot. ballot ≡ vote_of (server_at self.old server) tid free frame) }
        ensures ok { IfOk result (λ ballot. self.new ≡ with_server server (λ value. after_vote value tid ballot) self.old) }
        ensures err { OnErr result (self.new ≡ self.old) }
    {
        if frame > MOST_FRAME {
            return Err(NoMemory);
        }
        match server {
            FILES => self.files.vote(tid, free, frame),
            AUDIT => self.audit.vote(tid, free, frame),
            NAMES => self.names.vote(tid, free, frame),
            TIMERS | WINDOWS | SCRATCH => {
                self.note(server, tid, Notice::Abort);
                Ok(Vote::ReadOnly)
            }
            _ => self.extra.vote(tid, free, frame),
        }
    }

    /// The server takes in what became of the transaction. It takes no memory.
    pub fn note(&mut self, server: ServerNo, tid: Tid, notice: Notice)
        ensures { self.new ≡ with_server server (λ value. after_notice value tid notice) self.old }
    {
        match server {
            FILES => self.files.note(tid, notice),
            AUDIT => self.audit.note(tid, notice),
            NAMES => self.names.note(tid, notice),
            TIMERS => self.timers.note(tid, notice),
            WINDOWS => self.windows.note(tid, notice),
            SCRATCH => self.scratch.note(tid, notice),
            _ => self.extra.note(tid, notice),
        }
    }

    /// A copy of the changes that are pending for the transaction at the server, in the order in which
    /// they were served.
    pub fn changes(&self, server: ServerNo, tid: Tid) -> Result<Changes, NoMemory>
        ensures { IfOk result (λ changes. changes ≡ changes_in (server_at self.now server) tid) }
    {
        match server {
            FILES => self.files.changes(tid),
            AUDIT => self.audit.changes(tid),
            NAMES => self.names.changes(tid),
            TIMERS => self.timers.changes(tid),
            WINDOWS => self.windows.changes(tid),
            SCRATCH => self.scratch.changes(tid),
            _ => self.extra.changes(tid),
        }
    }

    /// The server has just these changes pending for the transaction, as a restart found them in the
    /// log; nothing where no log keeps its changes. After a refusal all are as they were.
    pub fn keep(&mut self, server: ServerNo, tid: Tid, changes: &Changes) -> Result<(), NoMemory>
        ensures ok { OnOk result (self.new ≡ with_server server (λ value. after_keeping value tid changes.now) self.old) }
        ensures err { OnErr result (self.new ≡ self.old) }
    {
        match server {
            FILES => self.files.keep(tid, changes),
            AUDIT => self.audit.keep(tid, changes),
            NAMES => self.names.keep(tid, changes),
            TIMERS => self.timers.keep(tid, changes),
            WINDOWS => self.windows.keep(tid, changes),
            SCRATCH => self.scratch.keep(tid, changes),
            _ => self.extra.keep(tid, changes),
        }
    }

    /// Changes that give the committed contents of the server again where they are applied in order
    /// to empty contents; none of a server whose changes no log keeps.
    pub fn contents(&self, server: ServerNo) -> Result<Changes, NoMemory>
        ensures { IfOk result (λ changes. AreContents (server_at self.now server).kind (server_at self.now server).table changes) }
    {
        match server {
            FILES => self.files.contents(),
            AUDIT => self.audit.contents(),
            NAMES => self.names.contents(),
            TIMERS => self.timers.contents(),
            WINDOWS => self.windows.contents(),
            SCRATCH => self.scratch.contents(),
            _ => self.extra.contents(),
        }
    }

    /// Whether a transaction has changes or reads at the server.
    pub fn holds(&self, server: ServerNo) -> bool
        ensures { result ≡ holds_some (server_at self.now server) }
    {
        match server {
            FILES => self.files.holds(),
            AUDIT => self.audit.holds(),
            NAMES => self.names.holds(),
            TIMERS => self.timers.holds(),
            WINDOWS => self.windows.holds(),
            SCRATCH => self.scratch.holds(),
            _ => self.extra.holds(),
        }
    }

    /// One tick more: each timer counts down by one, to 0. The only error is a count of ticks that
    /// stands at its last value; all is then as it was.
    pub fn tick(&mut self) -> Result<(), NoMemory>
        ensures ok { OnOk result (self.new ≡ with_server timers_no (λ value. record value { timers = ticked value.timers }) self.old) }
        ensures err { OnErr result (self.new ≡ self.old) }
    {
        self.timers.tick()
    }

    /// The further server, emptied. It takes no memory.
    pub fn into_extra(self) -> X
        ensures { X.state result ≡ cleared self.extra }
    {
        let mut extra = self.extra;
        extra.clear();
        extra
    }
}

/// An empty server takes in the committed changes that a log keeps of it, in order: it keeps them for a
/// transaction that no node has, and commits that.
fn take_in<S: Server>(server: &mut S, changes: &Changes) -> Result<(), NoMemory>
    requires { (S.state server.old).table ≡ no_table }
    ensures ok { OnOk result (S.state server.new ≡ taken_in changes.now (S.state server.old)) }
    ensures kind { (S.state server.new).kind ≡ (S.state server.old).kind }
{
    let tid = Tid {
        home: NodeNo(0),
        inc: 0,
        seq: 0,
    };
    server.keep(tid, changes)?;
    server.note(tid, Notice::Commit);
    Ok(())
}
