//! A log over a disk in memory, and records to append, each of a type that keeps what the log's calls want of it.

use anyhow::{Error, bail};
use qs_base::{List, ServerNo};
use qs_codec::Reader;
use qs_disk::{Fused, MemDisk};
use qs_log::{AppendFault, Log, LogOpen, Lsn};
use qs_record::{Record, decode};
use std::alloc::Global;
use std::marker::Model;

/// Every number of a slot is below it.
const LIMIT: u64 = 1 << 61;

/// A record that has a spelling.
#[derive(Drop)]
pub struct Spelled {
    rec: Record,
}

impl Model for Spelled {
    ghost use Rattle.qs_record.specs.Grammar.{IsRecord};
    ghost use Rattle.qs_record.specs.declared.record.Record.{Record};

    ghost Value = { Record };

    ghost view = { λ s. s.rec };

    ghost invariant = { λ s. IsRecord s.rec };
}

impl Spelled {
    /// The record that the bytes spell.
    pub fn read(alloc: Global, bytes: &[u8]) -> Result<Spelled, Error> {
        let mut reader = Reader::new(bytes);
        let rec = decode(alloc, &mut reader)?;
        Ok(Spelled { rec })
    }
}

/// A log that stands on its disk.
#[derive(Drop)]
pub struct TriedLog {
    log: Log<Fused<MemDisk>>,
}

impl Model for TriedLog {
    ghost use Rattle.qs_disk.specs.Memory.{MemoryValue};
    ghost use Rattle.qs_disk.specs.Fuse.{FusedValue};
    ghost use Rattle.qs_log.specs.Log.{LogValue, Stands};

    ghost Value = { LogValue (FusedValue MemoryValue) };

    ghost view = { λ t. t.log };

    ghost invariant = { λ t. Stands t.log t.log.disk.disk.disk };
}

/// What the slots of a log say.
#[derive(Clone, Copy)]
pub struct Slots {
    pub generation: u32,
    pub format: u32,
    pub inc: u64,
    pub top: u64,
}

impl TriedLog {
    /// The log of the disk.
    pub fn open(alloc: Global, disk: Fused<MemDisk>) -> Result<TriedLog, Error> {
        match Log::open(alloc, disk, LIMIT) {
            Ok(log) => Ok(TriedLog { log }),
            Err(LogOpen { disk, why }) => {
                drop(disk);
                Err(why.into())
            }
        }
    }

    /// Appends the record that the bytes spell.
    pub fn add(&mut self, alloc: Global, bytes: &[u8]) -> Result<Lsn, Error> {
        let rec = Spelled::read(alloc, bytes)?;
        let appended = self.append(&rec);
        drop(rec);
        Ok(appended?)
    }

    /// Appends a record.
    pub fn append(&mut self, rec: &Spelled) -> Result<Lsn, AppendFault> {
        self.log.append(&rec.rec)
    }

    /// The log once what waits is forced; else its disk.
    pub fn force(self) -> Result<TriedLog, Fused<MemDisk>> {
        let TriedLog { mut log } = self;
        match log.force() {
            Ok(()) => Ok(TriedLog { log }),
            Err(_) => Err(log.into_disk()),
        }
    }

    /// The log in its first incarnation; else its disk. A log that is past it is left as it is.
    pub fn raise(self) -> Result<TriedLog, Fused<MemDisk>> {
        let TriedLog { mut log } = self;
        if log.top() > 0 {
            return Ok(TriedLog { log });
        }
        match log.raise() {
            Ok(_) => Ok(TriedLog { log }),
            Err(_) => Err(log.into_disk()),
        }
    }

    /// Hands the fuse the calls at which it trips.
    pub fn arm(&mut self, plan: List<u64>) {
        self.log.arm(plan);
    }

    /// How many records a scan of a server from a place finds.
    pub fn count(&self, server: ServerNo, from: Lsn) -> Result<usize, Error> {
        let Ok(found) = self.log.scan(server, from) else {
            bail!("no memory");
        };
        Ok(found.len())
    }

    pub fn room(&self) -> u64 {
        self.log.room()
    }

    /// How many records it has.
    pub fn len(&self) -> usize {
        self.log.records().len()
    }

    pub fn slots(&self) -> Slots {
        Slots {
            generation: self.log.generation(),
            format: self.log.format(),
            inc: self.log.inc(),
            top: self.log.top(),
        }
    }

    pub fn into_disk(self) -> Fused<MemDisk> {
        self.log.into_disk()
    }
}
