//! The reference machine's table of one server, with the votes that its rules say.

use qs_base::{Bytes, Copied, List, NoMemory, ServerNo, Tid};
use qs_book_tables::{Table, TimerTable};
use qs_ops::servers::{AUDIT, FILES, TIMERS};
use qs_ops::{Changes, File, KeptChanges, Notice, Op, Reason, Reply, Vote};
use std::alloc::Global;

/// The bytes of a Prepare record before its changes, and of a length before a name or a text.
const PREPARE_HEAD: u64 = 23;

/// The bytes of a change's tag.
const TAG: u64 = 1;

const LENGTH: u64 = 4;

#[derive(Drop)]
pub(crate) struct Machine {
    server: ServerNo,
    quota: u64,
    table: Table,
    timers: TimerTable,
    alloc: Global,
}

impl Machine {
    /// Nothing is committed or held.
    pub(crate) fn new(alloc: Global, server: ServerNo, quota: u64) -> Machine {
        Machine {
            server,
            quota,
            table: Table::new(alloc),
            timers: TimerTable::new(alloc),
            alloc,
        }
    }

    /// Serves the operation with this reply. Whether it is the one that is due.
    pub(crate) fn serve(&mut self, tid: Tid, op: &Op, reply: &Reply) -> Result<bool, NoMemory> {
        if self.server == TIMERS {
            let due = self.timers.is_reply(tid, op, reply);
            self.timers.served(tid, op, reply)?;
            return Ok(due);
        }
        let due = self.table.is_reply(tid, op, reply)?;
        self.table.served(tid, op, reply)?;
        Ok(due)
    }

    /// How many bytes the log has to have free for a recoverable vote.
    pub(crate) fn need(&self, tid: Tid, frame: u64) -> Result<u64, NoMemory> {
        let mut need = frame.saturating_add(PREPARE_HEAD);
        for change in self.table.changes(tid)?.as_slice() {
            need = need.saturating_add(spelled(change));
        }
        Ok(need)
    }

    /// The vote that is due.
    pub(crate) fn vote(&self, tid: Tid, free: u64, frame: u64) -> Result<Vote, NoMemory> {
        if !self.table.has_changes(tid) {
            return Ok(Vote::ReadOnly);
        }
        match self.server {
            FILES => self.files_vote(tid, free, frame),
            AUDIT => self.room_vote(tid, free, frame),
            _ => self.names_vote(tid),
        }
    }

    fn files_vote(&self, tid: Tid, free: u64, frame: u64) -> Result<Vote, NoMemory> {
        let bytes = self.view_bytes(tid)?;
        if bytes > self.quota {
            let limit = self.quota;
            return Ok(Vote::Abort {
                reason: Reason::Quota { bytes, limit },
            });
        }
        self.room_vote(tid, free, frame)
    }

    fn room_vote(&self, tid: Tid, room: u64, frame: u64) -> Result<Vote, NoMemory> {
        let need = self.need(tid, frame)?;
        if need > room {
            return Ok(Vote::Abort {
                reason: Reason::LogRoom { need, room },
            });
        }
        Ok(Vote::Recoverable)
    }

    fn names_vote(&self, tid: Tid) -> Result<Vote, NoMemory> {
        match self.table.least_taken(tid) {
            None => Ok(Vote::Volatile),
            Some(name) => Ok(Vote::Abort {
                reason: Reason::Taken { name: name.copy()? },
            }),
        }
    }

    /// The bytes of all files that the transaction sees.
    fn view_bytes(&self, tid: Tid) -> Result<u64, NoMemory> {
        let mut seen = Table::new(self.alloc);
        let shown = self.show(tid, &mut seen);
        let bytes = bytes_of(seen.contents().as_slice());
        drop(seen);
        shown?;
        Ok(bytes)
    }

    /// The files that the transaction sees.
    fn show(&self, tid: Tid, seen: &mut Table) -> Result<(), NoMemory> {
        let none = List::new(self.alloc);
        seen.restart(&puts(self.alloc, self.table.contents())?, &none)?;
        seen.restart(&self.table.changes(tid)?, &none)
    }

    /// Takes in that the server voted.
    pub(crate) fn voted(&mut self, tid: Tid, vote: &Vote) -> Result<(), NoMemory> {
        match vote {
            Vote::ReadOnly => {
                self.table.release(tid);
                Ok(())
            }
            Vote::Volatile => self.table.set_vote(tid, true),
            Vote::Abort { .. } => self.table.set_vote(tid, false),
            Vote::Recoverable => Ok(()),
        }
    }

    pub(crate) fn note(&mut self, tid: Tid, notice: Notice) -> Result<(), NoMemory> {
        match (notice, self.server) {
            (Notice::Ending, TIMERS) => self.timers.end(tid),
            (Notice::Ending, _) | (_, TIMERS) => {}
            (Notice::Commit, _) => self.table.commit(tid)?,
            (Notice::Abort, _) => self.table.release(tid),
        }
        Ok(())
    }

    /// Just these changes are pending, as if they had been served; nothing where no log keeps any.
    pub(crate) fn keep(&mut self, tid: Tid, changes: &Changes) -> Result<(), NoMemory> {
        if !self.is_logged() {
            return Ok(());
        }
        self.table.release(tid);
        for change in changes.as_slice() {
            self.table.served(tid, change, &Reply::Done)?;
        }
        Ok(())
    }

    pub(crate) fn tick(&mut self) -> Result<(), NoMemory> {
        self.timers.tick()
    }

    /// The node restarts, and its log has what is committed, and these changes of the transaction.
    pub(crate) fn restart(&mut self, tid: Tid, changes: Changes) -> Result<(), NoMemory> {
        self.timers.clear();
        if !self.is_logged() {
            self.table = Table::new(self.alloc);
            return Ok(());
        }
        let mut keeps = List::new(self.alloc);
        keeps.push(KeptChanges { tid, changes })?;
        self.table.restart(&List::new(self.alloc), &keeps)
    }

    pub(crate) fn changes(&self, tid: Tid) -> Result<Changes, NoMemory> {
        self.table.changes(tid)
    }

    /// Whether these changes give the committed contents; none where no log keeps them.
    pub(crate) fn has_contents(&self, changes: &Changes) -> Result<bool, NoMemory> {
        if !self.is_logged() {
            return Ok(changes.is_empty());
        }
        let mut written = Table::new(self.alloc);
        let taken = written.restart(changes, &List::new(self.alloc));
        let alike = self.has_same(&written);
        drop(written);
        taken?;
        Ok(alike)
    }

    /// Whether the same is committed in another table.
    fn has_same(&self, other: &Table) -> bool {
        if self.server == AUDIT {
            return *other.notes() == *self.table.notes();
        }
        are_same(
            other.contents().as_slice(),
            self.table.contents().as_slice(),
        )
    }

    pub(crate) fn is_logged(&self) -> bool {
        self.server == FILES || self.server == AUDIT
    }
}

/// The bytes of all files.
fn bytes_of(files: &[File]) -> u64 {
    let mut bytes: u64 = 0;
    for file in files {
        bytes = bytes.saturating_add(file.content.len() as u64);
    }
    bytes
}

/// Whether these files have the same names and contents, in the same order.
fn are_same(files: &[File], others: &[File]) -> bool {
    let is_same = |(file, other): (&File, &File)| file.name == other.name
        && file.content == other.content;
    files.len() == others.len() && files.iter().zip(others.iter()).all(is_same)
}

/// The bytes that spell a change of files or audit: a tag, and each name and text behind its length.
fn spelled(change: &Op) -> u64 {
    let fields = match change {
        Op::Put { name, text } | Op::Append { name, text } => {
            field(name).saturating_add(field(text))
        }
        Op::Del { name } => field(name),
        Op::Note { text } => field(text),
        _ => 0,
    };
    fields.saturating_add(TAG)
}

fn field(bytes: &Bytes) -> u64 {
    LENGTH.saturating_add(bytes.len() as u64)
}

/// Changes that write the files.
fn puts(alloc: Global, files: &List<File>) -> Result<Changes, NoMemory> {
    let mut changes = List::new(alloc);
    for file in files.as_slice() {
        changes.push(Op::Put {
            name: file.name.copy()?,
            text: file.content.copy()?,
        })?;
    }
    Ok(changes)
}
