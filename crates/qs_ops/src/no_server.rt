//! The further server of a node that has none.
ghost use Rattle.qs_ops.specs.Server.{ServerValue};
ghost use Rattle.qs_ops.specs.Table.{no_table};
ghost use Rattle.qs_ops.specs.Timers.{no_timers};
ghost use Rattle.qs_ops.specs.declared.server.ServerKind.TheVariants as kinds;

use crate::server::Server;
use crate::{Changes, Notice, Op, Reply, Vote};
use qs_base::{Class, NoMemory, Tid};
use std::alloc::Global;

/// A server that has nothing: it answers each operation that it is absent, and votes read-only.
#[derive(Drop)]
pub struct NoServer {
    alloc: Global,
}

impl NoServer {
    /// The allocator is for the empty lists that it hands out.
    pub fn new(alloc: Global) -> NoServer {
        NoServer { alloc }
    }
}

impl Server for NoServer {
    ghost state = { λ server. record { kind = kinds.Nothing; table = no_table; timers = no_timers } };

    fn class(&self) -> Class {
        Class::Recoverable
    }

    fn serve(&mut self, _tid: Tid, _op: &Op) -> Result<Reply, NoMemory> {
        Ok(Reply::Absent)
    }

    fn vote(&mut self, _tid: Tid, _free: u64, _frame: u64) -> Result<Vote, NoMemory> {
        Ok(Vote::ReadOnly)
    }

    fn note(&mut self, _tid: Tid, _notice: Notice) {}

    fn changes(&self, _tid: Tid) -> Result<Changes, NoMemory> {
        Ok(Changes::new(self.alloc))
    }

    fn keep(&mut self, _tid: Tid, _changes: &Changes) -> Result<(), NoMemory> {
        Ok(())
    }

    fn contents(&self) -> Result<Changes, NoMemory> {
        Ok(Changes::new(self.alloc))
    }

    fn holds(&self) -> bool {
        false
    }

    fn clear(&mut self) {}
}
