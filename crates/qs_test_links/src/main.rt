//! Reads rows of packets, of links and of sessions over links, and prints what comes of each.
//!
//! A line of standard input is a row. What should come of it stands beside this program, and was
//! derived by hand.
//! - `# TEXT`: the text.
//! - `packet DIGITS`: the packet that the bytes spell, of which two hexadecimal digits each are one,
//!   and the bytes that spell this packet; or the first fault.
//! - `link COUNT: FAULT, FAULT ..`: which of so many packets come over a link through its ring, and
//!   which are then carried. A fault is `drop PACKET`, `again PACKET` or `hold PACKET for COUNT`.
//! - `sessions RUNS SEED`: so many drawn runs of sessions between nodes that crash and restart, over
//!   links that lose, repeat and hold packets by drawn plans. Printed is that all of them settled; what
//!   was drawn goes to standard error.
#![tactic(auto)]

mod links;
mod packets;
mod sessions;

use anyhow::{Error, bail};
use links::link_row;
use packets::packet_row;
use sessions::run_sessions;
use std::alloc::Global;
use std::io::{BufRead, BufReader};

/// What comes of a row.
fn row(alloc: Global, line: &str) -> Result<String, Error> {
    if line.starts_with('#') {
        return Ok(String::from_str(alloc, line)?);
    }
    if let Some(digits) = line.strip_prefix("packet ") {
        return packet_row(alloc, digits);
    }
    if let Some(words) = line.strip_prefix("link ") {
        return link_row(alloc, words);
    }
    bail!("a row is of no kind")
}

/// Prints what comes of a row.
fn print_row<R: AllocGlobal + Print + Eprint>(rt: &R, line: &str) -> Result<(), Error> {
    if let Some(words) = line.strip_prefix("sessions ") {
        return run_sessions(rt, words);
    }
    let said = row(rt.alloc(), line)?;
    println!(rt; "{said}")?;
    Ok(())
}

fn main(rt: HostRuntime) -> Result<(), Error> {
    let alloc = rt.alloc();
    for line in BufReader::new(alloc, rt.reader())?.lines(alloc) {
        print_row(&rt, line?.as_str())?;
    }
    Ok(())
}
