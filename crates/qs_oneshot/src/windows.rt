//! The windows server.
ghost use Rattle.std.specs.Prelude.{◌≡◌, Ok};
ghost use Rattle.qs_ops.specs.declared.vote.Vote.TheVariants as votes;
ghost use Rattle.qs_ops.specs.Table.{no_table};
ghost use Rattle.qs_ops.specs.Timers.{no_timers};
ghost use Rattle.qs_ops.specs.declared.server.ServerKind.TheVariants as kinds;

use qs_base::{Class, List, NoMemory, Tid};
use qs_ops::{Changes, Notice, Op, Reply, Server, Vote};
use qs_ops_shelf::Shelf;
use std::alloc::Global;

/// The windows server of a node: titles by name. A window is open from the commit of the
/// transaction that opened it.
#[derive(Drop)]
pub struct Windows {
    shelf: Shelf,
    alloc: Global,
}

impl Windows {
    /// No window. It takes no memory.
    pub fn new(alloc: Global) -> Windows
        ensures { result.shelf ≡ no_table }
    {
        Windows {
            shelf: Shelf::new(alloc),
            alloc,
        }
    }
}

impl Server for Windows {
    ghost state = { λ windows. record { kind = kinds.Windows; table = windows.shelf; timers = no_timers } };

    fn class(&self) -> Class {
        Class::Standard
    }

    fn serve(&mut self, tid: Tid, op: &Op) -> Result<Reply, NoMemory> {
        self.shelf.serve(tid, op)
    }

    /// Windows have no vote, and no node asks for one: it would be read-only, and change nothing.
    fn vote(&mut self, _tid: Tid, _free: u64, _frame: u64) -> Result<Vote, NoMemory>
        ensures answer { result ≡ Ok votes.ReadOnly }
        ensures unchanged { self.new ≡ self.old }
    {
        Ok(Vote::ReadOnly)
    }

    fn note(&mut self, tid: Tid, notice: Notice) {
        match notice {
            Notice::Commit => self.shelf.commit(tid),
            Notice::Abort => self.shelf.release(tid),
            Notice::Ending => {}
        }
    }

    fn changes(&self, tid: Tid) -> Result<Changes, NoMemory> {
        self.shelf.changes(tid)
    }

    fn keep(&mut self, _tid: Tid, _changes: &Changes) -> Result<(), NoMemory> {
        Ok(())
    }

    fn contents(&self) -> Result<Changes, NoMemory> {
        Ok(List::new(self.alloc))
    }

    fn holds(&self) -> bool {
        self.shelf.any_holds()
    }

    fn clear(&mut self) {
        self.shelf.clear();
    }
}
