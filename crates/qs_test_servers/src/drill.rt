//! A drawn sequence of calls.

use crate::calls::{Called, is_voting, new_servers, open_servers, reply_of};
use crate::drawn::{Drawn, NAME_COUNT, look_of, name_at};
use crate::machine::Machine;
use crate::seen::Seen;
use qs_base::{Bytes, NoMemory, NodeNo, ServerNo, Tid};
use qs_ops::{Changes, Notice, Op, Vote};
use std::alloc::Global;
use std::mem;

/// How many operations of a transaction are served, and by how many less a sequence may begin.
const MOST_OPERATIONS: u32 = 1_024;

const NEARLY: u32 = 2;

/// A quota that a few short texts pass, and one that long ones do.
const SHORT_QUOTA: u64 = 60;

const LONG_QUOTA: u64 = 65_536;

/// Servers, one of which is called, and the machine's table of that one.
#[derive(Drop)]
pub(crate) struct Drill {
    server: ServerNo,
    quota: u64,
    servers: Called,
    machine: Machine,
    calls: u32,
    alloc: Global,
}

impl Drill {
    /// Servers with nothing.
    pub(crate) fn new(alloc: Global, server: ServerNo, drawn: &Drawn) -> Drill {
        let quota = if drawn.is_long {
            LONG_QUOTA
        } else {
            SHORT_QUOTA
        };
        Drill {
            server,
            quota,
            servers: new_servers(alloc, quota),
            machine: Machine::new(alloc, server, quota),
            calls: 0,
            alloc,
        }
    }

    /// A transaction has nearly all its operations served, most of which are reads.
    fn tire(&mut self, drawn: &mut Drawn) -> Result<(), NoMemory> {
        let tid = drawn.tid();
        for at in 0..MOST_OPERATIONS - NEARLY {
            let op = if at % 16 == 0 {
                drawn.change(self.alloc, self.server)?
            } else {
                drawn.read(self.alloc, self.server)?
            };
            let served = self.serve_both(tid, &op);
            drop(op);
            served?;
        }
        Ok(())
    }

    fn serve_both(&mut self, tid: Tid, op: &Op) -> Result<(), NoMemory> {
        if let Some(reply) = reply_of(&mut self.servers, self.server, tid, op)? {
            let served = self.machine.serve(tid, op, &reply);
            drop(reply);
            served?;
        }
        Ok(())
    }

    /// How many calls were made.
    pub(crate) fn calls(&self) -> u32 {
        self.calls
    }

    /// Makes the calls, and at the end those that tell what is committed. Whether all were alike. In one sequence of 64 a
    /// transaction has nearly all operations that are served.
    pub(crate) fn run(&mut self, drawn: &mut Drawn, seen: &mut Seen) -> Result<bool, NoMemory> {
        if drawn.one_of(64) {
            self.tire(drawn)?;
        }
        for _call in 0..40 + drawn.word() % 64 {
            self.calls = self.calls.saturating_add(1);
            if !self.call(drawn, seen)? {
                return Ok(false);
            }
        }
        self.has_same_end()
    }

    fn call(&mut self, drawn: &mut Drawn, seen: &mut Seen) -> Result<bool, NoMemory> {
        let tid = drawn.tid();
        match drawn.word() % 32 {
            0 | 1 => {
                seen.commits = seen.commits.saturating_add(1);
                self.note(tid, Notice::Commit)
            }
            2 => self.note(tid, Notice::Abort),
            3 => self.note(tid, Notice::Ending),
            4 | 5 => self.tick(),
            6..=8 if is_voting(self.server) => self.vote(tid, drawn, seen),
            9 => self.keep(tid, drawn),
            10 if drawn.one_of(4) => {
                seen.restarts = seen.restarts.saturating_add(1);
                self.restart(tid)
            }
            11 => self.has_same_changes(tid),
            12 => self.has_same_contents(),
            _ => {
                let op = drawn.op(self.alloc, self.server)?;
                let alike = self.serve(tid, &op, seen);
                drop(op);
                alike
            }
        }
    }

    fn serve(&mut self, tid: Tid, op: &Op, seen: &mut Seen) -> Result<bool, NoMemory> {
        match reply_of(&mut self.servers, self.server, tid, op)? {
            None => Ok(false),
            Some(reply) => {
                seen.reply(&reply);
                let alike = self.machine.serve(tid, op, &reply);
                drop(reply);
                alike
            }
        }
    }

    /// A vote, over a log that may have just the room or a byte less.
    fn vote(&mut self, tid: Tid, drawn: &mut Drawn, seen: &mut Seen) -> Result<bool, NoMemory> {
        let frame = u64::from(drawn.word() % 256);
        let need = self.machine.need(tid, frame)?;
        let free = match drawn.word() % 4 {
            0 => need.saturating_sub(1),
            1 => need,
            _ => u64::MAX,
        };
        let due = self.machine.vote(tid, free, frame)?;
        let alike = self.vote_as(tid, free, frame, &due, seen);
        drop(due);
        alike
    }

    fn vote_as(
        &mut self,
        tid: Tid,
        free: u64,
        frame: u64,
        due: &Vote,
        seen: &mut Seen,
    ) -> Result<bool, NoMemory> {
        let vote = self.servers.vote(self.server, tid, free, frame)?;
        seen.vote(&vote);
        let alike = vote == *due;
        let taken = self.machine.voted(tid, &vote);
        drop(vote);
        taken?;
        Ok(alike)
    }

    fn note(&mut self, tid: Tid, notice: Notice) -> Result<bool, NoMemory> {
        self.servers.note(self.server, tid, notice);
        self.machine.note(tid, notice)?;
        Ok(true)
    }

    fn tick(&mut self) -> Result<bool, NoMemory> {
        self.servers.tick()?;
        self.machine.tick()?;
        Ok(true)
    }

    fn keep(&mut self, tid: Tid, drawn: &mut Drawn) -> Result<bool, NoMemory> {
        let changes = drawn.changes(self.alloc, self.server)?;
        self.servers.keep(self.server, tid, &changes)?;
        self.machine.keep(tid, &changes)?;
        Ok(true)
    }

    /// The node restarts over a log that has what is committed, and the changes of the transaction.
    fn restart(&mut self, tid: Tid) -> Result<bool, NoMemory> {
        let contents = self.servers.contents(self.server)?;
        let alike = self.machine.has_contents(&contents)?;
        self.reopen(tid, &contents)?;
        Ok(alike)
    }

    fn reopen(&mut self, tid: Tid, contents: &Changes) -> Result<(), NoMemory> {
        let changes = self.servers.changes(self.server, tid)?;
        let opened = open_servers(self.alloc, self.quota, self.server, contents)?;
        drop(mem::replace(&mut self.servers, opened));
        self.servers.keep(self.server, tid, &changes)?;
        self.machine.restart(tid, changes)
    }

    fn has_same_changes(&self, tid: Tid) -> Result<bool, NoMemory> {
        let changes = self.servers.changes(self.server, tid)?;
        Ok(changes == self.machine.changes(tid)?)
    }

    fn has_same_contents(&self) -> Result<bool, NoMemory> {
        let contents = self.servers.contents(self.server)?;
        self.machine.has_contents(&contents)
    }

    /// What a transaction sees that holds nothing, under each name.
    fn has_same_end(&mut self) -> Result<bool, NoMemory> {
        let tid = Tid {
            home: NodeNo(2),
            inc: 1,
            seq: 1,
        };
        for at in 0..NAME_COUNT {
            if !self.looks_same(tid, at)? {
                return Ok(false);
            }
        }
        self.has_same_contents()
    }

    fn looks_same(&mut self, tid: Tid, at: u32) -> Result<bool, NoMemory> {
        let name = Bytes::from_slice(self.alloc, name_at(at).as_bytes())?;
        let op = look_of(self.server, name, at == 0);
        let mut seen = Seen::new();
        let alike = self.serve(tid, &op, &mut seen);
        drop(op);
        alike
    }
}
