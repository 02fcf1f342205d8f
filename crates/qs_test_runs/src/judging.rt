//! Runs a row, and tells where it comes to none of its ends.

use anyhow::{Context, Error, bail};
use qs_base::{Bytes, NoMemory};
use qs_disk::{MemDisk, is_size};
use qs_io::{MemSink, MemSource};
use qs_test_cases::{Row, made};
use qs_text::status_line;
use qs_top::run;
use std::alloc::Global;
use std::collections::BTreeMap;
use std::thread::Threads;

/// The bytes of a sink.
const SINK_BYTES: usize = 1_048_576;

/// The bytes of each disk but the first.
const OTHER_BYTES: u64 = 65_536;

/// How many disks a run is given.
const DISK_COUNT: usize = 8;

/// The disks that the last row left, by its seed.
#[derive(Drop)]
pub struct Disks {
    left: BTreeMap<u64, Vec<MemDisk>>,
}

impl Disks {
    pub fn new(alloc: Global) -> Disks {
        Disks {
            left: BTreeMap::new(alloc),
        }
    }

    /// The disks of a run: the first as the row says, and the others fresh, or as the row before left them.
    fn take(&self, alloc: Global, row: &Row, seed: u64) -> Result<Vec<MemDisk>, Error> {
        let mut disks = Vec::new(alloc);
        disks.push(self.first(alloc, row, seed)?)?;
        for place in 1..DISK_COUNT {
            disks.push(self.other(alloc, row, seed, place)?)?;
        }
        Ok(disks)
    }

    fn other(&self, alloc: Global, row: &Row, seed: u64, place: usize) -> Result<MemDisk, Error> {
        let bytes = self.bytes_before(alloc, row, seed, place)?;
        disk_over(alloc, bytes.as_slice(), place as u64, &[])
    }

    /// What the row before left at that place.
    fn left_at(&self, seed: u64, place: usize) -> Result<&MemDisk, Error> {
        let disks = self.left.get(&seed).context("no row left such a disk")?;
        disks.get(place).context("no row left such a disk")
    }

    /// The first disk, with a bit turned at each place that the row names.
    fn first(&self, alloc: Global, row: &Row, seed: u64) -> Result<MemDisk, Error> {
        let mut bytes = self.bytes_before(alloc, row, seed, 0)?;
        for place in row.flips.iter() {
            if let Some(byte) = bytes.get_mut(*place) {
                *byte ^= 1;
            }
        }
        disk_over(alloc, bytes.as_slice(), seed, row.disk_fails.as_slice())
    }

    /// The bytes of a disk before any is changed: zeros, or what the row before left there.
    fn bytes_before(
        &self,
        alloc: Global,
        row: &Row,
        seed: u64,
        place: usize,
    ) -> Result<Vec<u8>, Error> {
        if row.again {
            let left = self.left_at(seed, place)?;
            return Ok(Vec::from_slice(alloc, left.bytes())?);
        }
        let count = if place == 0 {
            row.disk_bytes
        } else {
            OTHER_BYTES
        };
        Ok(vec![in alloc; 0; count as usize]?)
    }

    /// Keeps the disks for the next row.
    fn keep(&mut self, disks: Vec<MemDisk>, seed: u64) -> Result<(), Error> {
        self.left.insert(seed, disks)?;
        Ok(())
    }
}

/// A disk with these bytes, whose calls with these numbers fail.
fn disk_over(alloc: Global, bytes: &[u8], seed: u64, fails: &[u64]) -> Result<MemDisk, Error> {
    if !is_size(bytes.len() as u64) {
        bail!("no disk has so many bytes");
    }
    made(MemDisk::from_bytes(alloc, bytes, seed, fails))
}

/// Runs a row under each of its seeds, and with each of its numbers where it has any.
pub fn judge<R>(rt: &R, row: &Row, disks: &mut Disks) -> Result<(), Error>
where
    R: AllocGlobal + Print + Threads + Sync,
{
    if row.numbers.is_empty() {
        return judge_script(rt, row, disks, row.script.as_str(), "");
    }
    let (front, back) = (row.numbered.0.as_str(), row.numbered.1.as_str());
    for number in row.numbers.iter() {
        let script = format!(in rt.alloc(); "{}{front}{number}{back}\n", row.script.as_str())?;
        let place = format!(in rt.alloc(); "number {number} ")?;
        judge_script(rt, row, disks, script.as_str(), place.as_str())?;
    }
    Ok(())
}

/// Runs a row with this script under each of its seeds.
fn judge_script<R>(
    rt: &R,
    row: &Row,
    disks: &mut Disks,
    script: &str,
    place: &str,
) -> Result<(), Error>
where
    R: AllocGlobal + Print + Threads + Sync,
{
    for seed in row.seeds.iter() {
        judge_one(rt, row, disks, script, place, *seed)?;
    }
    Ok(())
}

/// Runs a row with this script under a seed, and compares what it came to.
fn judge_one<R>(
    rt: &R,
    row: &Row,
    disks: &mut Disks,
    script: &str,
    place: &str,
    seed: u64,
) -> Result<(), Error>
where
    R: AllocGlobal + Print + Threads + Sync,
{
    let alloc = rt.alloc();
    let turn = format!(in alloc; "{place}seed {seed}")?;
    let words = made(with_seed(alloc, row, seed))?;
    let mut given = disks.take(alloc, row, seed)?;
    let judged = judge_over(rt, row, words.as_slice(), script, turn.as_str(), &mut given);
    disks.keep(given, seed)?;
    judged
}

/// Runs a script over these disks, and compares what it came to.
fn judge_over<R>(
    rt: &R,
    row: &Row,
    words: &[String],
    script: &str,
    turn: &str,
    disks: &mut Vec<MemDisk>,
) -> Result<(), Error>
where
    R: AllocGlobal + Print + Threads + Sync,
{
    let alloc = rt.alloc();
    if row.sink_piece == 0 {
        bail!("a sink takes no bytes");
    }
    let mut source = made(MemSource::new(alloc, script.as_bytes(), row.source_fails.as_slice()))?;
    let mut sink = made(MemSink::new(
        alloc,
        SINK_BYTES,
        row.sink_piece,
        row.sink_fails.as_slice(),
    ))?;
    let line = ran(rt, words, &mut source, &mut sink, disks)?;
    compare(rt, row, turn, line.as_slice(), sink.given())
}

/// Runs a script, and gives the line of its status.
fn ran<R>(
    rt: &R,
    words: &[String],
    source: &mut MemSource,
    sink: &mut MemSink,
    disks: &mut Vec<MemDisk>,
) -> Result<Bytes, Error>
where
    R: AllocGlobal + Print + Threads + Sync,
{
    if disks.len() < DISK_COUNT {
        bail!("a disk is missing");
    }
    let ran = run(rt, rt.alloc(), words, source, sink, disks);
    made(status_line(rt.alloc(), &ran.status))
}

/// Prints what a run came to where that is none of the row's ends.
fn compare<R: AllocGlobal + Print>(
    rt: &R,
    row: &Row,
    turn: &str,
    line: &[u8],
    given: &[u8],
) -> Result<(), Error> {
    let status = str::from_utf8(line).context("a status is no text")?;
    let output = str::from_utf8(given).context("an output is no text")?;
    if !row.ends.iter().any(|end| end.is(status, output)) {
        println!(rt; "  {turn} {status}")?;
        print_all(rt, output)?;
    }
    Ok(())
}

fn print_all<R: AllocGlobal + Print>(rt: &R, output: &str) -> Result<(), Error> {
    for line in output.split('\n') {
        println!(rt; "    {line}")?;
    }
    Ok(())
}

/// The words, with the seed in its place.
fn with_seed(alloc: Global, row: &Row, seed: u64) -> Result<Vec<String>, NoMemory> {
    let mut words = Vec::new(alloc);
    for word in row.words.iter() {
        words.push(if word.as_str() == "S" {
            format!(in alloc; "{seed}")?
        } else {
            word.clone()?
        })?;
    }
    Ok(words)
}
