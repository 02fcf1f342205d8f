//! A row: what a run is given, and what may come of it.

use crate::ends::End;
use crate::memory::made;
use anyhow::{Context, Error, bail};
use qs_base::NoMemory;
use std::alloc::Global;

/// The seeds of a row that names none.
const SEEDS: [u64; 20] = [
    0,
    1,
    2,
    3,
    5,
    7,
    42,
    255,
    256,
    1000,
    4096,
    65_535,
    65_536,
    4_294_967_295,
    4_294_967_296,
    6_364_136_223_846_793_005,
    9_223_372_036_854_775_807,
    9_223_372_036_854_775_808,
    18_446_744_073_709_551_614,
    18_446_744_073_709_551_615,
];

/// The bytes of the first disk where a row does not say.
const DISK_BYTES: u64 = 65_536;

/// The bytes of a sink.
const SINK_BYTES: usize = 1_048_576;

#[derive(Drop)]
pub struct Row {
    pub name: String,
    pub words: Vec<String>,
    pub seeds: Vec<u64>,
    pub disk_bytes: u64,
    /// The calls of the first disk that fail.
    pub disk_fails: Vec<u64>,
    /// The first disk is that of the row before.
    pub again: bool,
    pub flips: Vec<usize>,
    /// The numbers with which it is run in turn.
    pub numbers: Vec<u64>,
    /// The line behind the script that names the number: what stands before it and behind it.
    pub numbered: (String, String),
    pub source_fails: Vec<u64>,
    pub sink_piece: usize,
    pub sink_fails: Vec<u64>,
    pub script: String,
    pub ends: Vec<End>,
}

impl Row {
    pub fn new(alloc: Global, name: &str) -> Result<Row, Error> {
        Ok(Row {
            name: String::from_str(alloc, name)?,
            words: Vec::new(alloc),
            seeds: Vec::from_slice(alloc, &SEEDS)?,
            disk_bytes: DISK_BYTES,
            disk_fails: Vec::new(alloc),
            again: false,
            flips: Vec::new(alloc),
            numbers: Vec::new(alloc),
            numbered: (String::new(alloc), String::new(alloc)),
            source_fails: Vec::new(alloc),
            sink_piece: SINK_BYTES,
            sink_fails: Vec::new(alloc),
            script: String::new(alloc),
            ends: Vec::new(alloc),
        })
    }

    /// Takes a line of the row in.
    pub fn add(&mut self, alloc: Global, line: &str) -> Result<(), Error> {
        if let Some(text) = line.strip_prefix("|") {
            self.script.push_str(text)?;
            self.script.push_str("\n")?;
        } else if let Some(text) = line.strip_prefix("!") {
            self.script.push_str(text)?;
        } else if let Some(rest) = line.strip_prefix("*") {
            self.repeat(rest, "\n")?;
        } else if let Some(rest) = line.strip_prefix("+") {
            self.repeat(rest, "")?;
        } else if let Some(status) = line.strip_prefix("= ") {
            self.ends.push(End::new(alloc, status)?)?;
        } else if is_of_end(line) {
            self.ends
                .last_mut()
                .context("no end has begun")?
                .add(alloc, line)?;
        } else {
            self.set(alloc, line)?;
        }
        Ok(())
    }

    /// Adds a text so many times, each time with an end.
    fn repeat(&mut self, line: &str, end: &str) -> Result<(), Error> {
        let (count, text) = line.split_once(" ").context("a count has no text")?;
        for _turn in 0..count.parse::<u32>().context("a count is no number")? {
            self.script.push_str(text)?;
            self.script.push_str(end)?;
        }
        Ok(())
    }

    /// Takes in with which numbers it is run, and the line that names them.
    fn number(&mut self, alloc: Global, rest: &str) -> Result<(), Error> {
        let (from, rest) = rest.split_once(" ").context("a range has no end")?;
        let (to, line) = rest.split_once(" ").context("a range has no line")?;
        let (front, back) = line
            .split_once("%")
            .context("a line has no place for the number")?;
        self.numbers = range_of(alloc, from, to)?;
        self.numbered = (
            String::from_str(alloc, front)?,
            String::from_str(alloc, back)?,
        );
        Ok(())
    }

    /// Takes in a line that says over what it is run.
    fn set(&mut self, alloc: Global, line: &str) -> Result<(), Error> {
        if let Some(words) = line.strip_prefix("?") {
            self.words = made(words_of(alloc, words))?;
        } else if let Some(seeds) = line.strip_prefix("seeds ") {
            self.seeds = numbers_of(alloc, seeds)?;
        } else if let Some(disk) = line.strip_prefix("disk ") {
            self.disk_fails = numbers_of(alloc, disk)?;
            if !self.disk_fails.is_empty() {
                self.disk_bytes = self.disk_fails.remove(0);
            }
        } else if line == "again" {
            self.again = true;
        } else if let Some(place) = line.strip_prefix("flip ") {
            self.flips
                .push(place.parse::<usize>().context("a place is no number")?)?;
        } else if let Some(rest) = line.strip_prefix("each ") {
            self.number(alloc, rest)?;
        } else if let Some(calls) = line.strip_prefix("source ") {
            self.source_fails = numbers_of(alloc, calls)?;
        } else if let Some(rest) = line.strip_prefix("sink ") {
            let (piece, calls) = rest.split_once(" ").context("a sink has no call")?;
            self.sink_piece = piece.parse::<usize>().context("a piece is no number")?;
            self.sink_fails = numbers_of(alloc, calls)?;
        } else {
            bail!("a line of a row has no meaning");
        }
        Ok(())
    }
}

/// Whether a line says what comes of a run.
fn is_of_end(line: &str) -> bool {
    line.strip_prefix(">").is_some()
        || line.strip_prefix("<").is_some()
        || line.strip_prefix(":").is_some()
        || line.strip_prefix("^").is_some()
        || line.strip_prefix("~").is_some()
}

fn words_of(alloc: Global, line: &str) -> Result<Vec<String>, NoMemory> {
    let mut words = Vec::new(alloc);
    for word in line.split(' ') {
        if !word.is_empty() {
            words.push(String::from_str(alloc, word)?)?;
        }
    }
    Ok(words)
}

fn numbers_of(alloc: Global, line: &str) -> Result<Vec<u64>, Error> {
    let mut numbers = Vec::new(alloc);
    for word in line.split(' ') {
        numbers.push(word.parse::<u64>().context("a word is no number")?)?;
    }
    Ok(numbers)
}

fn range_of(alloc: Global, from: &str, to: &str) -> Result<Vec<u64>, Error> {
    let from = from
        .parse::<u64>()
        .context("a range begins with no number")?;
    let to = to.parse::<u64>().context("a range ends with no number")?;
    let mut numbers = Vec::new(alloc);
    for number in from..=to {
        numbers.push(number)?;
    }
    Ok(numbers)
}
