//! The name server.
ghost use Rattle.std.specs.Prelude.{◌≡◌, IfOk};
ghost use Rattle.std.specs.Option.{option_copied};
ghost use Rattle.qs_ops.specs.Table.{no_table, taken_by, lesser, least_taken};
ghost use Rattle.qs_ops.specs.Timers.{no_timers};
ghost use Rattle.qs_ops.specs.declared.server.ServerKind.TheVariants as kinds;

use qs_base::{Bytes, Class, Copied, List, NoMemory, Tid};
use qs_ops::{Changes, Notice, Op, Reason, Reply, Server, Vote};
use qs_ops_shelf::Shelf;
use std::alloc::Global;
use std::cmp::Ordering;

/// The name server of a node: texts by name. A name is bound from the commit of the transaction
/// that bound it. The vote of a transaction that is about to bind a taken name is abort.
#[derive(Drop)]
pub struct Names {
    shelf: Shelf,
    alloc: Global,
}

impl Names {
    /// No name is bound. It takes no memory.
    pub fn new(alloc: Global) -> Names
        ensures { result.shelf ≡ no_table }
    {
        Names {
            shelf: Shelf::new(alloc),
            alloc,
        }
    }

    /// The name that the change binds, where it is taken.
    fn taken_by<'a>(&self, tid: Tid, change: &'a Op) -> Option<&'a Bytes>
        ensures { option_copied result ≡ taken_by self.now.shelf tid change.now }
    {
        match change {
            Op::Bind { name, .. } if self.shelf.is_taken(tid, name) => Some(name),
            _ => None,
        }
    }

    /// The least of the transaction's pending names that is taken: bound, or pending for another
    /// that voted volatile. For each pending name it looks at those alone that have it pending too.
    fn least_taken(&self, tid: Tid) -> Option<&Bytes>
        ensures { option_copied result ≡ least_taken self.now.shelf tid }
    {
        let changes = self.shelf.pending(tid);
        let mut least = None;
        let mut left = changes.len();
        while left > 0 {
            left -= 1;
            least = lesser(self.taken_by(tid, &changes[left]), least);
        }
        least
    }

    /// A copy of that name.
    fn copy_taken(&self, tid: Tid) -> Result<Option<Bytes>, NoMemory>
        ensures { IfOk result (λ name. name ≡ least_taken self.now.shelf tid) }
    {
        match self.least_taken(tid) {
            Some(name) => Ok(Some(name.copy()?)),
            None => Ok(None),
        }
    }
}

impl Server for Names {
    ghost state = { λ names. record { kind = kinds.Names; table = names.shelf; timers = no_timers } };

    fn class(&self) -> Class {
        Class::Volatile
    }

    fn serve(&mut self, tid: Tid, op: &Op) -> Result<Reply, NoMemory> {
        self.shelf.serve(tid, op)
    }

    fn vote(&mut self, tid: Tid, _free: u64, _frame: u64) -> Result<Vote, NoMemory> {
        if !self.shelf.has_changes(tid) {
            self.shelf.release(tid);
            return Ok(Vote::ReadOnly);
        }
        let Some(name) = self.copy_taken(tid)? else {
            self.shelf.set_vote(tid, true)?;
            return Ok(Vote::Volatile);
        };
        self.shelf.set_vote(tid, false)?;
        let reason = Reason::Taken { name };
        Ok(Vote::Abort { reason })
    }

    fn note(&mut self, tid: Tid, notice: Notice) {
        match notice {
            Notice::Commit => self.shelf.commit(tid),
            Notice::Abort => self.shelf.release(tid),
            Notice::Ending => {}
        }
    }

    fn changes(&self, tid: Tid) -> Result<Changes, NoMemory> {
        self.shelf.changes(tid)
    }

    fn keep(&mut self, _tid: Tid, _changes: &Changes) -> Result<(), NoMemory> {
        Ok(())
    }

    fn contents(&self) -> Result<Changes, NoMemory> {
        Ok(List::new(self.alloc))
    }

    fn holds(&self) -> bool {
        self.shelf.any_holds()
    }

    fn clear(&mut self) {
        self.shelf.clear();
    }
}

/// The lesser of two names.
fn lesser<'a>(name: Option<&'a Bytes>, other: Option<&'a Bytes>) -> Option<&'a Bytes>
    ensures { option_copied result ≡ lesser (option_copied name.entry) (option_copied other.entry) }
{
    match (name, other) {
        (None, other) => other,
        (name, None) => name,
        (Some(name), Some(other)) => match name.cmp(other) {
            Ordering::Less | Ordering::Equal => Some(name),
            Ordering::Greater => Some(other),
        },
    }
}
