//! What a log's room is, its bytes on the disk, and what power cuts leave of it.
//!
//! The bytes are those of the format, with digests that another program reckoned.

use crate::tried::{Slots, Spelled, TriedLog};
use anyhow::{Error, bail};
use qs_base::{List, ServerNo};
use qs_disk::{Disk, Fused, MemDisk};
use qs_log::{AppendFault, Lsn};
use std::alloc::Global;

/// The bytes of each disk.
const SIZE: u64 = 65_536;

/// Where the first area begins.
const AREA: usize = 8_192;

/// A Prepare at server 0 that covers one request, with the one change Put "f" "hello".
const PREPARE: [u8; 38] = [
    1, 0, 0, 0, 0, 0, 0, 0, 0, 1, 0, 0, 0, 1, 0, 0, 0, 0, 1, 0, 0, 0, 1, 1, 0, 0, 0, 1, 0x66, 0, 0,
    0, 5, 0x68, 0x65, 0x6c, 0x6c, 0x6f,
];

/// The bytes of that Prepare in front of the count of its changes' low byte.
const FRONT: usize = 22;

/// A Commit that tells nobody.
const COMMIT: [u8; 15] = [2, 0, 0, 0, 0, 0, 0, 0, 0, 1, 0, 0, 0, 1, 0];

/// How many bytes the two take, each in a batch, with the next gate.
const TWO_BATCHES: usize = 136;

/// How many disks each disk call is tried with, whose power cuts differ.
const SEEDS: u64 = 8;

/// A Prepare of six changes with texts of 4,096 bytes and one of 4,004.
fn long_prepare(alloc: Global) -> Result<Spelled, Error> {
    let mut bytes = Vec::from_slice(alloc, &PREPARE[..FRONT])?;
    bytes.push(7)?;
    for length in [4_096, 4_096, 4_096, 4_096, 4_096, 4_096, 4_004u32] {
        bytes.extend_from_slice(&[1, 0, 0, 0, 1, b'f'])?;
        bytes.extend_from_slice(&length.to_be_bytes())?;
        for _byte in 0..length {
            bytes.push(b'x')?;
        }
    }
    Spelled::read(alloc, bytes.as_slice())
}

fn fresh(alloc: Global, seed: u64) -> Result<Fused<MemDisk>, Error> {
    let Ok(disk) = MemDisk::new(alloc, SIZE, seed, &[]) else {
        bail!("no memory");
    };
    Ok(Fused::new(disk))
}

/// The log with one record more, which waits.
fn with_record(alloc: Global, log: TriedLog, bytes: &[u8]) -> Result<TriedLog, Error> {
    let mut log = log;
    match log.add(alloc, bytes) {
        Ok(_) => Ok(log),
        Err(fault) => {
            drop(log);
            Err(fault)
        }
    }
}

/// A log with the Prepare forced.
fn prepared(alloc: Global, seed: u64) -> Result<TriedLog, Error> {
    let log = TriedLog::open(alloc, fresh(alloc, seed)?)?;
    forced(with_record(alloc, log, &PREPARE)?)
}

/// The log once what waits is forced.
fn forced(log: TriedLog) -> Result<TriedLog, Error> {
    match log.force() {
        Ok(log) => Ok(log),
        Err(disk) => {
            drop(disk);
            bail!("a disk call failed")
        }
    }
}

/// And then the Commit.
fn committed(alloc: Global) -> Result<TriedLog, Error> {
    let log = prepared(alloc, 1)?;
    forced(with_record(alloc, log, &COMMIT)?)
}

/// The bytes that the long Prepare needs, which is to be refused, and those that a fresh log has.
fn refusal(alloc: Global) -> Result<(u64, u64), Error> {
    let mut log = TriedLog::open(alloc, fresh(alloc, 1)?)?;
    let refused = refusal_by(alloc, &mut log);
    drop(log);
    refused
}

fn refusal_by(alloc: Global, log: &mut TriedLog) -> Result<(u64, u64), Error> {
    let long = long_prepare(alloc)?;
    let appended = log.append(&long);
    drop(long);
    match appended {
        Err(AppendFault::LogFull { need, room }) => Ok((need, room)),
        Ok(_) | Err(AppendFault::NoMemory) => bail!("not refused"),
    }
}

/// The room of a fresh log.
fn fresh_room(alloc: Global) -> Result<u64, Error> {
    let log = TriedLog::open(alloc, fresh(alloc, 1)?)?;
    let room = log.room();
    drop(log);
    Ok(room)
}

/// Adds so many Prepares. The number of the last.
fn add_prepares(alloc: Global, log: &mut TriedLog, count: usize) -> Result<Lsn, Error> {
    let mut last = 0;
    for _prepare in 0..count {
        last = log.add(alloc, &PREPARE)?;
    }
    Ok(last)
}

/// The number of the last of so many Prepares that wait in the log, and the room that it has then.
fn room_behind(alloc: Global, log: TriedLog, count: usize) -> Result<(Lsn, u64), Error> {
    let mut log = log;
    let last = add_prepares(alloc, &mut log, count);
    let room = log.room();
    drop(log);
    Ok((last?, room))
}

/// The same of a fresh log with one.
fn waiting_room(alloc: Global) -> Result<(Lsn, u64), Error> {
    let log = TriedLog::open(alloc, fresh(alloc, 1)?)?;
    room_behind(alloc, log, 1)
}

/// Prints the room of a fresh log, and as records wait and are forced.
fn show_room<R: AllocGlobal + Print>(rt: &R) -> Result<(), Error> {
    let alloc = rt.alloc();
    let (need, room) = refusal(alloc)?;
    println!(rt; "a record needs {need} bytes of {room}")?;
    println!(rt; "room {}", fresh_room(alloc)?)?;
    let (lsn, room) = waiting_room(alloc)?;
    println!(rt; "record {lsn}, room {room}")?;
    let (_, room) = room_behind(alloc, prepared(alloc, 1)?, 0)?;
    println!(rt; "forced, room {room}")?;
    let (lsn, room) = room_behind(alloc, prepared(alloc, 1)?, 2)?;
    println!(rt; "record {lsn}, room {room}")?;
    Ok(())
}

/// The disk of a log with two batches.
fn committed_disk(alloc: Global) -> Result<MemDisk, Error> {
    Ok(committed(alloc)?.into_disk().into_inner())
}

/// Prints the bytes of two batches, and of the gate behind them.
fn show_bytes<R: AllocGlobal + Print>(rt: &R) -> Result<(), Error> {
    let mem = committed_disk(rt.alloc())?;
    let shown = show_batches(rt, mem.bytes());
    drop(mem);
    shown
}

/// Prints them of the bytes of a disk.
fn show_batches<R: Print>(rt: &R, bytes: &[u8]) -> Result<(), Error> {
    for byte in bytes.iter().skip(AREA).take(TWO_BATCHES) {
        print!(rt; "{byte:02x}")?;
    }
    println!(rt)?;
    Ok(())
}

/// A log with a Prepare of server 0 forced and a Commit waiting.
fn scanned(alloc: Global) -> Result<TriedLog, Error> {
    let log = prepared(alloc, 1)?;
    with_record(alloc, log, &COMMIT)
}

/// How many records of a server a scan from a place finds in it.
fn found(alloc: Global, server: u8, from: Lsn) -> Result<usize, Error> {
    let log = scanned(alloc)?;
    let count = log.count(ServerNo(server), from);
    drop(log);
    count
}

/// Prints how many records scans find.
fn show_scans<R: AllocGlobal + Print>(rt: &R) -> Result<(), Error> {
    for (server, from) in [(7, 0), (7, 1), (7, 2), (0, 0), (1, 0)] {
        println!(rt;
            "server {server} from {from}: {}",
            found(rt.alloc(), server, from)?
        )?;
    }
    Ok(())
}

/// What the slots of a fresh disk say.
fn fresh_slots(alloc: Global) -> Result<Slots, Error> {
    let log = TriedLog::open(alloc, fresh(alloc, 1)?)?;
    let slots = log.slots();
    drop(log);
    Ok(slots)
}

/// Prints what the slots of a fresh disk say.
fn show_fresh<R: AllocGlobal + Print>(rt: &R) -> Result<(), Error> {
    let said = fresh_slots(rt.alloc())?;
    println!(rt;
        "generation {} format {} incarnation {} top {}",
        said.generation, said.format, said.inc, said.top
    )?;
    Ok(())
}

/// A disk with the Prepare forced, the Commit waiting, and a disk call to trip at.
fn armed(alloc: Global, seed: u64, call: u64) -> Result<TriedLog, Error> {
    let mut plan = List::new(alloc);
    if plan.push(call).is_err() {
        bail!("no memory");
    }
    let log = prepared(alloc, seed)?;
    let mut log = with_record(alloc, log, &COMMIT)?;
    log.arm(plan);
    Ok(log)
}

/// What a power cut leaves: how many records, and the incarnation.
type Left = (usize, u64);

fn not_tripped(log: TriedLog) -> Result<Left, Error> {
    drop(log);
    bail!("no disk call tripped")
}

/// What stands after a power cut.
fn after_cut(alloc: Global, disk: Fused<MemDisk>) -> Result<Left, Error> {
    let mut disk = disk;
    if let Err(failed) = disk.power_cut() {
        drop(disk);
        return Err(failed.into());
    }
    let again = TriedLog::open(alloc, disk)?;
    let left = (again.len(), again.slots().inc);
    drop(again);
    Ok(left)
}

/// The same after a force that tripped.
fn after_force(alloc: Global, seed: u64, call: u64) -> Result<Left, Error> {
    match armed(alloc, seed, call)?.force() {
        Ok(log) => not_tripped(log),
        Err(disk) => after_cut(alloc, disk),
    }
}

/// The same after a raise that tripped.
fn after_raise(alloc: Global, seed: u64, call: u64) -> Result<Left, Error> {
    match armed(alloc, seed, call)?.raise() {
        Ok(log) => not_tripped(log),
        Err(disk) => after_cut(alloc, disk),
    }
}

/// Which of two outcomes were seen, and whether another one was.
#[derive(Clone, Copy)]
struct Seen {
    old: bool,
    new: bool,
    other: bool,
}

impl Seen {
    const NONE: Seen = Seen {
        old: false,
        new: false,
        other: false,
    };

    fn see(&mut self, left: Left, old: Left, new: Left) {
        if left == old {
            self.old = true;
        } else if left == new {
            self.new = true;
        } else {
            self.other = true;
        }
    }

    fn show<R: Print>(&self, rt: &R, what: &str) -> Result<(), Error> {
        println!(rt;
            "{what}: the old one {}, the new one {}, another {}",
            self.old, self.new, self.other
        )?;
        Ok(())
    }
}

/// Which outcomes are seen where the power is cut at each disk call of a force.
fn force_cuts(alloc: Global) -> Result<Seen, Error> {
    let mut lists = Seen::NONE;
    for call in 1..5 {
        for seed in 0..SEEDS {
            lists.see(after_force(alloc, seed, call)?, (1, 0), (2, 0));
        }
    }
    Ok(lists)
}

/// And of a raise.
fn raise_cuts(alloc: Global) -> Result<Seen, Error> {
    let mut incs = Seen::NONE;
    for call in 1..7 {
        for seed in 0..SEEDS {
            incs.see(after_raise(alloc, seed, call)?, (1, 0), (1, 1));
        }
    }
    Ok(incs)
}

/// Prints all of it.
pub(crate) fn show_rows<R: AllocGlobal + Print>(rt: &R) -> Result<(), Error> {
    show_fresh(rt)?;
    show_room(rt)?;
    show_bytes(rt)?;
    show_scans(rt)?;
    force_cuts(rt.alloc())?.show(rt, "a force")?;
    raise_cuts(rt.alloc())?.show(rt, "a raise")
}
