//! A server of a node, as the node sees it.
ghost use Rattle.std.specs.Prelude.{◌≡◌, ◌<◌, ◌^◌, true, IfOk, OnOk, OnErr, Some};
ghost use Rattle.qs_ops.specs.Members.{class_of, is_two_phase};
ghost use Rattle.qs_ops.specs.Server.{ServerValue, number_of, is_own, reply_of, after_serving, vote_of, after_vote, after_notice, changes_in, after_keeping, AreContents, cleared, holds_some};

use crate::{Changes, Notice, Op, Reply, Vote};
use qs_base::{Class, NoMemory, Tid};

/// Which server it is.
#[derive(Clone, Copy)]
pub enum ServerKind {
    /// Files, which together may have `quota` bytes.
    Files { quota: u64 },
    Audit,
    Names,
    Timers,
    Windows,
    Scratch,
    /// A further server that has nothing.
    Nothing,
}

/// A server of a node. It serves the operations of transactions, votes on their commits, and is told
/// their outcomes. The only error of a call is a refusal of memory; the server is then as it was.
pub trait Server: Drop {
    /// Which server it is, and what it holds.
    ghost state: { Self → ServerValue };

    /// How it takes part in a commit. No call changes it.
    fn class(&self) -> Class
        ensures { result ≡ class_of (number_of (state self.now).kind) };

    /// Serves an operation of its own for the transaction, and replies. It takes the memory that a
    /// later notice needs; a count at its end is a refusal of memory too.
    fn serve(&mut self, tid: Tid, op: &Op) -> Result<Reply, NoMemory>
        requires own { is_own (state self.old).kind op.now ≡ true }
        ensures reply { IfOk result (λ reply. reply_of (state self.old) tid op.now ≡ Some reply) }
        ensures ok { IfOk result (λ reply. state self.new ≡ after_serving (state self.old) tid op.now reply) }
        ensures err { OnErr result (state self.new ≡ state self.old) };

    /// Votes on the commit of the transaction, where the log has `free` bytes of room, and `frame`
    /// are taken beside the bytes of a Prepare record. Servers vote that can keep a commit back: files,
    /// audit, names and the further server.
    fn vote(&mut self, tid: Tid, free: u64, frame: u64) -> Result<Vote, NoMemory>
        requires votes { is_two_phase (class_of (number_of (state self.old).kind)) ≡ true }
        requires frame { frame < 2 ^ 32 }
        ensures vote { IfOk result (λ ballot. ballot ≡ vote_of (state self.old) tid free frame) }
        ensures ok { IfOk result (λ ballot. state self.new ≡ after_vote (state self.old) tid ballot) }
        ensures err { OnErr result (state self.new ≡ state self.old) };

    /// Takes in what became of the transaction: a commit applies what is pending, an abort drops it,
    /// and the ending drops its timers. It takes no memory.
    fn note(&mut self, tid: Tid, notice: Notice)
        ensures { state self.new ≡ after_notice (state self.old) tid notice };

    /// A copy of the changes that are pending for the transaction, in the order in which they were
    /// served.
    fn changes(&self, tid: Tid) -> Result<Changes, NoMemory>
        ensures { IfOk result (λ changes. changes ≡ changes_in (state self.now) tid) };

    /// Has just these changes pending for the transaction, as a restart found them in the log;
    /// nothing where no log keeps the server's changes. It takes the memory that a later notice
    /// needs.
    fn keep(&mut self, tid: Tid, changes: &Changes) -> Result<(), NoMemory>
        ensures ok { OnOk result (state self.new ≡ after_keeping (state self.old) tid changes.now) }
        ensures err { OnErr result (state self.new ≡ state self.old) };

    /// Changes that give the committed contents again where they are applied in order to empty
    /// contents: of files, in byte order of their names, a put of the first 4,096 bytes and appends of
    /// the further ones; the notes of audit in order; none of a server whose changes no log keeps.
    fn contents(&self) -> Result<Changes, NoMemory>
        ensures { IfOk result (λ changes. AreContents (state self.now).kind (state self.now).table changes) };

    /// Whether a transaction has changes or reads here. It takes no memory.
    fn holds(&self) -> bool
        ensures { result ≡ holds_some (state self.now) };

    /// Empties all. It takes no memory.
    fn clear(&mut self)
        ensures { state self.new ≡ cleared (state self.old) };
}
