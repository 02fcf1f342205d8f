//! The locks of all transactions, by name: who has a pending change, and who read.
ghost use Rattle.std.specs.Prelude.{◌≡◌, [], OnOk, OnErr, IfOk};
ghost use Rattle.std.specs.Bool.{OnTrue, OnFalse};
ghost use Rattle.std.specs.List.{list_any};
ghost use Rattle.qs_base.specs.Order.{same_bytes};
ghost use Rattle.qs_ops.specs.Table.{is_change_of, changes_name, reads_name};
ghost use Rattle.qs_book_tables.specs.Held.{changers, readers, name_holder, lock_holder, ChangesLocks, SameLocks, IsFresh, IsFreshFor};
ghost use Rattle.qs_book_tables.specs.Index.{with_tid, without_tid, ChangesHolders, SameHolders};

use crate::edits::changed_name;
use crate::holders::Holders;
use qs_base::{Bytes, NoMemory, Tid};
use qs_ops::{Op, Reply, Share};
use std::alloc::Global;

/// Who has a pending change to a name, and who read it.
#[derive(Drop)]
pub struct Locks {
    pub changers: Holders,
    pub readers: Holders,
}

impl Locks {
    /// Nobody holds anything. It takes no memory.
    pub fn new(alloc: Global) -> Locks
        ensures changers { changers result ≡ [] }
        ensures readers { readers result ≡ [] }
    {
        Locks {
            changers: Holders::new(alloc),
            readers: Holders::new(alloc),
        }
    }

    /// Who keeps a change to the name back: another with a pending change to it, else another that
    /// read it; of several the least.
    fn name_holder(&self, tid: Tid, name: &Bytes) -> Option<Tid>
        ensures { result ≡ name_holder self.now tid name.now }
    {
        match self.changers.other(name, tid) {
            Some(other) => Some(other),
            None => self.readers.other(name, tid),
        }
    }

    /// Who keeps the transaction from the operation; only those of files are kept back. A get
    /// waits for changes alone.
    pub fn holder(&self, tid: Tid, op: &Op) -> Option<Tid>
        ensures { result ≡ lock_holder self.now tid op.now }
    {
        match op {
            Op::Put { name, .. } | Op::Append { name, .. } | Op::Del { name } => {
                self.name_holder(tid, name)
            }
            Op::Get { name } => self.changers.other(name, tid),
            _ => None,
        }
    }

    /// Takes the lock that an operation with this reply makes; `true` where the transaction did
    /// not hold it before. After a refusal everybody holds what they did.
    pub fn add(&mut self, tid: Tid, op: &Op, reply: &Reply) -> Result<bool, NoMemory>
        ensures ok { OnOk result (ChangesLocks (with_tid tid) op.now reply.now self.old self.new) }
        ensures fresh { IfOk result (λ fresh. OnTrue fresh (IsFresh tid op.now reply.now self.old)) }
        ensures held { IfOk result (λ fresh. OnFalse fresh (SameLocks self.old self.new)) }
        ensures err { OnErr result (SameLocks self.old self.new) }
    {
        match (op, reply) {
            (_, Reply::Done) => add_change(&mut self.changers, tid, op),
            (Op::Get { name }, Reply::Absent | Reply::Value { .. }) => self.readers.add(name, tid),
            _ => Ok(false),
        }
    }

    /// Gives back the lock that an operation with this reply made. It takes no memory.
    pub fn remove(&mut self, tid: Tid, op: &Op, reply: &Reply)
        ensures { ChangesLocks (without_tid tid) op.now reply.now self.old self.new }
    {
        match (op, reply) {
            (_, Reply::Done) => release_change(&mut self.changers, tid, op),
            (Op::Get { name }, Reply::Absent | Reply::Value { .. }) => {
                self.readers.remove(name, tid)
            }
            _ => {}
        }
    }

    /// Takes the locks of changes that a log kept.
    pub fn keep(&mut self, tid: Tid, changes: &[Op]) -> Result<(), NoMemory>
        ensures changers { OnOk result (ChangesHolders (λ name. list_any (is_change_of name) changes.now) (with_tid tid) (changers self.old) (changers self.new)) }
        ensures readers { readers self.new ≡ readers self.old }
    {
        keep_changes(&mut self.changers, tid, changes)
    }

    /// Gives back all that a share holds. It takes no memory.
    pub fn release(&mut self, tid: Tid, share: &Share)
        ensures changers { ChangesHolders (λ name. changes_name name share.now) (without_tid tid) (changers self.old) (changers self.new) }
        ensures readers { ChangesHolders (λ name. reads_name name share.now) (without_tid tid) (readers self.old) (readers self.new) }
    {
        release_changes(&mut self.changers, tid, share.changes.as_slice());
        release_reads(&mut self.readers, tid, share.reads.as_slice());
    }
}

/// The transaction has a pending change to the names of these changes from now on.
fn keep_changes(changers: &mut Holders, tid: Tid, changes: &[Op]) -> Result<(), NoMemory>
    ensures { OnOk result (ChangesHolders (λ name. list_any (is_change_of name) changes.now) (with_tid tid) changers.old.names.entries changers.new.names.entries) }
{
    for change in changes {
        add_change(changers, tid, change)?;
    }
    Ok(())
}

/// The transaction has no pending change to the names of these changes any more.
fn release_changes(changers: &mut Holders, tid: Tid, changes: &[Op])
    ensures { ChangesHolders (λ name. list_any (is_change_of name) changes.now) (without_tid tid) changers.old.names.entries changers.new.names.entries }
{
    for change in changes {
        release_change(changers, tid, change);
    }
}

/// The transaction has a pending change to the name of this change from now on; `true` where it
/// had none before. After a refusal everybody holds what they did.
fn add_change(changers: &mut Holders, tid: Tid, change: &Op) -> Result<bool, NoMemory>
    ensures ok { OnOk result (ChangesHolders (λ name. is_change_of name change.now) (with_tid tid) changers.old.names.entries changers.new.names.entries) }
    ensures fresh { IfOk result (λ fresh. OnTrue fresh (IsFreshFor tid (λ name. is_change_of name change.now) changers.old.names.entries)) }
    ensures held { IfOk result (λ fresh. OnFalse fresh (SameHolders changers.old.names.entries changers.new.names.entries)) }
    ensures err { OnErr result (SameHolders changers.old.names.entries changers.new.names.entries) }
{
    match changed_name(change) {
        Some(name) => changers.add(name, tid),
        None => Ok(false),
    }
}

/// The transaction has no pending change to the name of this change any more.
fn release_change(changers: &mut Holders, tid: Tid, change: &Op)
    ensures { ChangesHolders (λ name. is_change_of name change.now) (without_tid tid) changers.old.names.entries changers.new.names.entries }
{
    if let Some(name) = changed_name(change) {
        changers.remove(name, tid);
    }
}

/// The transaction has read none of these names any more.
fn release_reads(readers: &mut Holders, tid: Tid, names: &[Bytes])
    ensures { ChangesHolders (λ name. list_any (same_bytes name) names.now) (without_tid tid) readers.old.names.entries readers.new.names.entries }
{
    for name in names {
        readers.remove(name, tid);
    }
}
