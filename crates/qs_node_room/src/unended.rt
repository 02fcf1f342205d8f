//! The transactions of a log that are not ended there.
ghost use Rattle.std.specs.Prelude.{◌≡◌, ◌<◌, ◌≤◌, ◌^◌, ◌==◌, not, [], OnOk, OnErr, IfOk, length};
ghost use Rattle.qs_node_room.specs.Room.{has_open, opened, ended, taken_back, boundary_of, after_record, unended, free_room};

use qs_base::{NoMemory, Tid};
use qs_record::Record;
use std::alloc::Global;
use std::collections::BTreeMap;
use std::marker::Model;

/// The transactions that have a record in a log and are not ended there.
#[derive(Drop)]
pub struct Unended {
    tids: BTreeMap<Tid, ()>,
}

impl Model for Unended {
    ghost use Rattle.qs_node_room.specs.Room.{Tids};

    ghost Value = { Tids };

    ghost view = { λ u. u.tids.entries };
}

impl Unended {
    /// Those of a log with these records. The only error is a refusal of memory.
    pub fn of(alloc: Global, records: &[Record]) -> Result<Unended, NoMemory>
        ensures { IfOk result (λ tids. tids ≡ unended records.now) }
    {
        let mut tids = Unended {
            tids: BTreeMap::new(alloc),
        };
        for rec in records {
            tids.take_in(rec)?;
        }
        Ok(tids)
    }

    /// The record is the log's next. For want of memory, its only error, all is as it was.
    fn take_in(&mut self, rec: &Record) -> Result<(), NoMemory>
        ensures ok { OnOk result (self.new ≡ after_record self.old rec.now) }
        ensures err { OnErr result (self.new ≡ self.old) }
    {
        match boundary_of(rec) {
            Boundary::Opens { tid } => {
                self.open(tid)?;
            }
            Boundary::Ends { tid } => self.end(tid),
        }
        Ok(())
    }

    /// The transaction has a record that does not end it. It answers whether it was not among them: where the log refuses
    /// that record, it is then to be ended again. For want of memory, its only error, all is as it was.
    pub fn open(&mut self, tid: Tid) -> Result<bool, NoMemory>
        ensures ok { OnOk result (self.new ≡ opened tid self.old) }
        ensures added { IfOk result (λ added. added ≡ not (has_open tid self.old)) }
        ensures back { IfOk result (λ added. taken_back added tid self.new ≡ self.old) }
        ensures err { OnErr result (self.new ≡ self.old) }
    {
        if self.tids.contains_key(&tid) {
            return Ok(false);
        }
        self.tids.insert(tid, ())?;
        Ok(true)
    }

    /// The transaction is ended. It takes no memory.
    pub fn end(&mut self, tid: Tid)
        ensures { self.new ≡ ended tid self.old }
    {
        self.tids.remove(&tid);
    }

    /// Whether there is none.
    pub fn is_empty(&self) -> bool
        ensures { result ≡ (length self.now == 0) }
    {
        self.tids.is_empty()
    }

    /// How many bytes of a log that has `room` are free where it keeps `keep` for each of them; at least 0.
    pub fn free_room(&self, room: u64, keep: u64) -> u64
        ensures { result ≡ free_room room keep self.now }
    {
        room.saturating_sub(keep.saturating_mul(self.tids.len() as u64))
    }
}

/// What a record does to the transaction that it names.
#[derive(Clone, Copy)]
pub enum Boundary {
    /// It begins, or goes on.
    Opens { tid: Tid },
    /// It is ended.
    Ends { tid: Tid },
}

/// A Prepare or a Commit with a list begins a transaction; a Commit without one, an Aborted or an End ends it.
pub fn boundary_of(rec: &Record) -> Boundary
    ensures { result ≡ boundary_of rec.now }
{
    match rec {
        Record::Prepare { tid, .. } => Boundary::Opens { tid: *tid },
        Record::Commit { tid, told } if !told.is_empty() => Boundary::Opens { tid: *tid },
        Record::Commit { tid, .. } | Record::Aborted { tid } | Record::End { tid } => {
            Boundary::Ends { tid: *tid }
        }
    }
}
