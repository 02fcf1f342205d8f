//! Prints what comes of logs on disks in memory.
//!
//! Without words: the rows of a log, how many records a full one has that is opened again, and the digest of the
//! hash. What is to be printed stands beside this program, and was derived by hand or by another program.
//!
//! Words: SIZE RECORDS OPENS. A log of this size is filled with so many records and opened so often, for `bench/log` to
//! count the instructions. How many records it has is printed.
#![tactic(auto)]

mod digest;
mod filling;
mod rows;
mod tried;

use anyhow::{Context, Error, bail};
use digest::show_digest;
use filling::{Plan, show_filled};
use rows::show_rows;
use std::env;
use std::rt::Env;

/// A log that is full, and opened once more.
const FULL: Plan = Plan {
    size: 65_536,
    records: 2_045,
    opens: 1,
};

/// The plan that the words after the program's name tell, if there are any.
fn plan_of<R: Env + AllocGlobal>(rt: &R) -> Result<Option<Plan>, Error> {
    let mut numbers = Vec::new(rt.alloc());
    for word in env::args(rt)?.skip(1) {
        numbers.push(word.parse::<u64>().context("a word is no number")?)?;
    }
    if numbers.is_empty() {
        return Ok(None);
    }
    let &[size, records, opens] = numbers.as_slice() else {
        bail!("usage: qs_test_log [SIZE RECORDS OPENS]");
    };
    Ok(Some(Plan {
        size,
        records,
        opens,
    }))
}

fn main(rt: HostRuntime) -> Result<(), Error> {
    if let Some(plan) = plan_of(&rt)? {
        return show_filled(&rt, plan);
    }
    show_rows(&rt)?;
    show_filled(&rt, FULL)?;
    show_digest(&rt)
}
