//! A log that is filled on a disk in memory and opened again, so that the instructions of both can be counted.
//!
//! The disk has SIZE bytes; RECORDS records of 14 bytes are forced as one batch; then the log is opened OPENS times
//! more. How many records the last log has is printed.

ghost use Rattle.std.specs.Prelude.{IfOk};
ghost use Rattle.qs_log.specs.Log.{Stands};

use anyhow::{Error, bail};
use qs_base::{NodeNo, Tid};
use qs_disk::{MemDisk, is_size};
use qs_log::Log;
use qs_record::Record;
use std::alloc::Global;

/// Every number of a slot is below it.
const LIMIT: u64 = 1 << 61;

/// The record that the log is filled with.
const RECORD: Record = Record::End {
    tid: Tid {
        home: NodeNo(0),
        inc: 1,
        seq: 1,
    },
};

/// What is measured.
#[derive(Clone, Copy)]
pub(crate) struct Plan {
    pub(crate) size: u64,
    pub(crate) records: u64,
    pub(crate) opens: u64,
}

/// The log of a disk.
fn opened(alloc: Global, disk: MemDisk) -> Result<Log<MemDisk>, Error>
    ensures { IfOk result (λ log. Stands log log.disk.disk) }
{
    match Log::open(alloc, disk, LIMIT) {
        Ok(log) => Ok(log),
        Err(_) => bail!("the log was not opened"),
    }
}

/// A disk of this size, whose log has so many records in one batch.
fn filled(alloc: Global, size: u64, records: u64) -> Result<MemDisk, Error> {
    if !is_size(size) {
        bail!("no disk has this size");
    }
    let Ok(disk) = MemDisk::new(alloc, size, 0, &[]) else {
        bail!("there is no memory for the disk");
    };
    let mut log = opened(alloc, disk)?;
    for _turn in 0..records {
        if log.append(&RECORD).is_err() {
            drop(log);
            bail!("the log is full");
        }
    }
    if log.force().is_err() {
        drop(log);
        bail!("the disk failed");
    }
    Ok(log.into_disk())
}

/// Prints how many records the log of a plan has as it is opened for the last time; 0 where it is not opened again.
pub(crate) fn show_filled<R: AllocGlobal + Print>(rt: &R, plan: Plan) -> Result<(), Error> {
    let alloc = rt.alloc();
    let mut disk = filled(alloc, plan.size, plan.records)?;
    let mut found = 0;
    for _turn in 0..plan.opens {
        let log = opened(alloc, disk)?;
        found = log.records().len();
        disk = log.into_disk();
    }
    drop(disk);
    println!(rt; "{found}")?;
    Ok(())
}
