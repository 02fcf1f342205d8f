//! The audit server.
ghost use Rattle.std.specs.Prelude.{◌≡◌, ◌+◌, ◌≤◌, IfOk, Some, true, [], ◌++◌, length, vec_len};
ghost use Rattle.std.specs.Vec.{vec_capacity};
ghost use Rattle.std.specs.Map.{remove_entry};
ghost use Rattle.std.specs.BTreeMap.{is_at};
ghost use Rattle.qs_base.specs.Order.{tid_cmp};
ghost use Rattle.qs_ops.specs.Server.{is_own};
ghost use Rattle.qs_ops.specs.declared.server.ServerKind.TheVariants as kinds;
ghost use Rattle.std.specs.List.{fold};
ghost use Rattle.qs_ops.specs.Table.{apply_note, change_by, reply_to, released, committed, no_table};
ghost use Rattle.qs_ops.specs.Timers.{no_timers};
ghost use Rattle.qs_ops_shares.specs.Shares.{share_in};

use crate::notes::{add_notes, changes_of};
use qs_base::{Bytes, Class, List, NoMemory, Tid};
use qs_ops::{Changes, Notice, Op, Reply, Server, Vote, is_change};
use qs_ops_shares::Shares;
use std::alloc::Global;
use std::marker::Model;

/// The audit server of a node. The notes of a transaction join the committed ones at its commit.
#[derive(Drop)]
pub struct Audit {
    /// The changes that were committed, in order, with room for those that are pending.
    committed: Vec<Op>,
    shares: Shares,
    /// How many changes are pending.
    pending: usize,
    alloc: Global,
}

impl Model for Audit {
    ghost use Rattle.std.specs.Prelude.{vec_len};
    ghost use Rattle.std.specs.Vec.{vec_capacity};
    ghost use Rattle.qs_ops.specs.Table.{TableValue};
    ghost use Rattle.qs_audit.specs.Audit.{audit_table, IsKept};

    ghost Value = { TableValue };

    ghost view = { λ a. audit_table a.committed.items a.shares };

    ghost invariant = { λ a. IsKept a.shares a.pending (vec_len a.committed) (vec_capacity a.committed) };
}

impl Audit {
    /// No notes. It takes no memory.
    pub fn new(alloc: Global) -> Audit
        ensures { result ≡ no_table }
    {
        Audit {
            committed: Vec::new(alloc),
            shares: Shares::new(alloc),
            pending: 0,
            alloc,
        }
    }

    /// The notes that the transaction sees: the committed ones, and then its own.
    fn notes(&self, tid: Tid) -> Result<List<Bytes>, NoMemory>
        ensures { IfOk result (λ notes. notes ≡ fold apply_note self.now.notes (share_in self.now.shares tid).changes) }
    {
        let mut notes = List::new(self.alloc);
        add_notes(&mut notes, &self.committed)?;
        add_notes(&mut notes, self.shares.changes(tid))?;
        Ok(notes)
    }

    /// The transaction holds nothing here any more. It takes no memory.
    fn release(&mut self, tid: Tid)
        ensures { self.new ≡ released self.old tid }
    {
        let share = self.shares.release(tid);
        self.pending -= share.changes.len();
    }

    /// The pending changes of the transaction are committed, and it holds nothing here any more.
    /// It takes no memory: serving and keeping made the room.
    fn commit(&mut self, tid: Tid)
        ensures { self.new ≡ committed self.old tid }
    {
        let share = self.shares.release(tid);
        self.pending -= share.changes.len();
        add_all(&mut self.committed, share.changes);
    }

    /// The reply to an operation of its own.
    fn reply(&self, tid: Tid, op: &Op) -> Result<Reply, NoMemory>
        requires { is_own kinds.Audit op.now ≡ true }
        ensures { IfOk result (λ reply. reply_to self.now tid op.now ≡ Some reply) }
    {
        if self.shares.is_full(tid) {
            return Ok(Reply::TooMany);
        }
        match op {
            Op::Notes => Ok(Reply::Notes {
                list: self.notes(tid)?,
            }),
            _ => Ok(Reply::Done),
        }
    }
}

impl Server for Audit {
    ghost state = { λ table. record { kind = kinds.Audit; table = table; timers = no_timers } };

    fn class(&self) -> Class {
        Class::Recoverable
    }

    fn serve(&mut self, tid: Tid, op: &Op) -> Result<Reply, NoMemory> {
        let reply = self.reply(tid, op)?;
        let Some(pending) = self.pending.checked_add(made_by(op, &reply)) else {
            return Err(NoMemory);
        };
        self.committed.reserve(pending)?;
        self.shares.serve(tid, op, &reply)?;
        self.pending = pending;
        Ok(reply)
    }

    fn vote(&mut self, tid: Tid, free: u64, frame: u64) -> Result<Vote, NoMemory> {
        if !self.shares.has_changes(tid) {
            self.release(tid);
            return Ok(Vote::ReadOnly);
        }
        let ballot = self.shares.vote_in_room(tid, free, frame)?;
        if let Vote::Abort { .. } = ballot {
            self.shares.set_vote(tid, false)?;
        }
        Ok(ballot)
    }

    fn note(&mut self, tid: Tid, notice: Notice) {
        match notice {
            Notice::Commit => self.commit(tid),
            Notice::Abort => self.release(tid),
            Notice::Ending => {}
        }
    }

    fn changes(&self, tid: Tid) -> Result<Changes, NoMemory> {
        self.shares.copy_changes(tid)
    }

    fn keep(&mut self, tid: Tid, changes: &Changes) -> Result<(), NoMemory> {
        let before = self.shares.changes(tid).len();
        let Some(pending) = self.pending.checked_add(changes.len()) else {
            return Err(NoMemory);
        };
        self.committed.reserve(pending)?;
        self.shares.keep(tid, changes)?;
        self.pending = pending - before;
        Ok(())
    }

    fn contents(&self) -> Result<Changes, NoMemory> {
        let mut notes = List::new(self.alloc);
        add_notes(&mut notes, &self.committed)?;
        changes_of(self.alloc, notes.as_slice())
    }

    fn holds(&self) -> bool {
        self.shares.any_holds()
    }

    fn clear(&mut self) {
        self.committed.clear();
        self.shares.clear();
        self.pending = 0;
    }
}

/// Adds these changes at the end. It takes no memory.
fn add_all(committed: &mut Vec<Op>, changes: Changes)
    requires room { vec_len committed.old + length changes ≤ vec_capacity committed.old }
    ensures items { committed.new.items ≡ committed.old.items ++ changes }
    ensures len { vec_len committed.new ≡ vec_len committed.old + length changes }
    ensures capacity { vec_capacity committed.old ≤ vec_capacity committed.new }
{
    let _ = committed.append(&mut changes.into_vec());
}

/// How many pending changes an operation with this reply makes.
fn made_by(op: &Op, reply: &Reply) -> usize
    ensures value { result ≡ length (change_by op.now reply.now) }
{
    match reply {
        Reply::Done if is_change(op) => 1,
        _ => 0,
    }
}
