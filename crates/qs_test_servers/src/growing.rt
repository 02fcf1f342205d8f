//! So many transactions or changes of one server, whose instructions a script counts.

use crate::calls::{Called, is_voting, new_servers, reply_of};
use crate::drawn::{change_of, read_of};
use qs_base::{Bytes, Copied, NoMemory, NodeNo, ServerNo, Tid};
use qs_ops::{Notice, Op, Reply};
use std::alloc::Global;

/// How many changes a transaction has where they are counted.
const CHANGES: u32 = 500;

/// The bytes beside those of a Prepare record.
const FRAME: u64 = 169;

/// What is counted.
#[derive(Clone, Copy)]
pub(crate) enum Shape {
    /// Transactions one after the other, each with a name of its own.
    Commits,
    /// Transactions that are all open at once, each with a name of its own.
    Open,
    /// Changes, 500 in each transaction, each with a name of its own and a look at it.
    Changes,
}

#[derive(Drop)]
pub(crate) struct Growing {
    servers: Called,
    server: ServerNo,
    /// How many changes were done.
    pub(crate) done: u32,
    alloc: Global,
}

impl Growing {
    pub(crate) fn new(alloc: Global, server: ServerNo) -> Growing {
        Growing {
            servers: new_servers(alloc, u64::MAX),
            server,
            done: 0,
            alloc,
        }
    }

    pub(crate) fn grow(&mut self, shape: Shape, count: u32) -> Result<(), NoMemory> {
        match shape {
            Shape::Commits => self.commit_each(count),
            Shape::Open => self.open_all(count),
            Shape::Changes => self.change_all(count),
        }
    }

    fn commit_each(&mut self, count: u32) -> Result<(), NoMemory> {
        for number in 0..count {
            self.change(number, number)?;
            self.end(number)?;
        }
        Ok(())
    }

    fn open_all(&mut self, count: u32) -> Result<(), NoMemory> {
        for number in 0..count {
            self.change(number, number)?;
        }
        for number in 0..count {
            self.end(number)?;
        }
        Ok(())
    }

    fn change_all(&mut self, count: u32) -> Result<(), NoMemory> {
        for number in 0..count {
            self.change(number / CHANGES, number)?;
            if number % CHANGES == CHANGES - 1 {
                self.end(number / CHANGES)?;
            }
        }
        Ok(())
    }

    /// A change of the transaction under a name of that number, and a look at it where one tells no list.
    fn change(&mut self, transaction: u32, number: u32) -> Result<(), NoMemory> {
        let tid = numbered(transaction);
        let name = self.name_of(number)?;
        let text = name.copy()?;
        if self.is_done(tid, change_of(self.server, name, text))? {
            self.done = self.done.saturating_add(1);
        }
        if let Some(read) = read_of(self.server, self.name_of(number)?) {
            self.is_done(tid, read)?;
        }
        Ok(())
    }

    fn name_of(&self, number: u32) -> Result<Bytes, NoMemory> {
        let text = format!(in self.alloc; "name{number}")?;
        Bytes::from_slice(self.alloc, text.as_bytes())
    }

    /// Serves an operation. Whether the reply is that it is done.
    fn is_done(&mut self, tid: Tid, op: Op) -> Result<bool, NoMemory> {
        let reply = reply_of(&mut self.servers, self.server, tid, &op);
        drop(op);
        let reply = reply?;
        let is_done = matches!(reply, Some(Reply::Done));
        drop(reply);
        Ok(is_done)
    }

    /// The transaction votes, where the server does, and ends with commit.
    fn end(&mut self, transaction: u32) -> Result<(), NoMemory> {
        let tid = numbered(transaction);
        if is_voting(self.server) {
            self.servers.vote(self.server, tid, u64::MAX, FRAME)?;
        }
        self.servers.note(self.server, tid, Notice::Ending);
        self.servers.note(self.server, tid, Notice::Commit);
        Ok(())
    }
}

/// The transaction of that number.
fn numbered(transaction: u32) -> Tid {
    Tid {
        home: NodeNo(0),
        inc: 1,
        seq: transaction,
    }
}
