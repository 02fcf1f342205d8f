//! Runs scripts and judges histories, over disks in memory and under several seeds each, and compares what comes of them
//! with what was derived by hand.
//!
//! Standard input has the rows. A line `# NAME` begins a row, and what follows says what it is made of:
//!
//! - `? WORD ..`: the words after the program's name; the word `S` stands for each of the seeds in turn.
//! - `seeds S ..`: the seeds, in place of those that every row has.
//! - `disk BYTES CALL ..`: the first disk is fresh and has so many bytes; its calls with these numbers fail. Without this line
//!   it has 65,536 bytes and fails nowhere.
//! - `again`: the disks are those which the row before left under the same seed. Else all but the first are fresh, of 65,536 bytes each.
//! - `flip AT`: a bit of the byte at that place of the first disk is turned before the run, also of a fresh one.
//! - `each FROM TO LINE`: it is run once for each number from one to the other, with the line behind the script, in which the
//!   number takes the place of `%`.
//! - `source CALL`: that call of the source fails. `sink PIECE CALL`: the sink takes so many bytes a call, and that call fails.
//! - `|TEXT`: a line of the script or history; `!TEXT`: a part of one, without a line feed; `*COUNT TEXT`: so many equal lines;
//!   `+COUNT TEXT`: so many equal parts.
//! - `= STATUS`: the run may come to this line on standard error, in which a star stands for any text, with just the output
//!   that follows: `>TEXT` is a line of it; `<TEXT` is a part of one, without a line feed, and `^COUNT TEXT` so many equal
//!   parts; `:FROM TO TEXT` are lines, each with its number, a blank and the text.
//! - `~TEXT`: lines of the output end so, in this order; others may stand between them. Of an output that has such lines the
//!   front alone is compared with the lines before them.
//!
//! A row is right where the run comes to one of its ends under each of its seeds, with each of its numbers.
#![tactic(auto)]

mod judging;

use anyhow::{Error, bail};
use judging::{Disks, judge};
use qs_test_cases::Row;
use std::io::{BufRead, BufReader};
use std::thread::Threads;

/// Judges a row, and tells what is wrong with it.
fn tell<R>(rt: &R, row: &Row, disks: &mut Disks) -> Result<(), Error>
where
    R: AllocGlobal + Print + Threads + Sync,
{
    println!(rt; "{}", row.name.as_str())?;
    judge(rt, row, disks)
}

/// The row that is being read, if one is, and the disks.
#[derive(Drop)]
struct Rows {
    row: Option<Row>,
    disks: Disks,
}

impl Rows {
    /// Reads a line, and judges the row that ends before it.
    fn read<R>(&mut self, rt: &R, line: &str) -> Result<(), Error>
    where
        R: AllocGlobal + Print + Threads + Sync,
    {
        if let Some(name) = line.strip_prefix("# ") {
            self.finish(rt)?;
            self.row = Some(Row::new(rt.alloc(), name)?);
            return Ok(());
        }
        match self.row.as_mut() {
            Some(row) => row.add(rt.alloc(), line),
            None => bail!("a line stands in no row"),
        }
    }

    /// Judges the row that ends here, if one does.
    fn finish<R>(&mut self, rt: &R) -> Result<(), Error>
    where
        R: AllocGlobal + Print + Threads + Sync,
    {
        match self.row.as_ref() {
            Some(row) => tell(rt, row, &mut self.disks),
            None => Ok(()),
        }
    }
}

/// Reads all rows.
fn read_all<R>(rt: &R, rows: &mut Rows) -> Result<(), Error>
where
    R: AllocGlobal + Input + Print + Threads + Sync,
{
    for line in BufReader::new(rt.alloc(), rt.reader())?.lines(rt.alloc()) {
        rows.read(rt, line?.as_str())?;
    }
    rows.finish(rt)
}

fn main(rt: HostRuntime) -> Result<(), Error> {
    let mut rows = Rows {
        row: None,
        disks: Disks::new(rt.alloc()),
    };
    let read = read_all(&rt, &mut rows);
    drop(rows);
    read
}
