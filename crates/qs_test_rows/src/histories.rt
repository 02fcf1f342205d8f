//! Histories that are judged: lawful ones, and neighbours of them that break a clause.
//!
//! A row is a history. A neighbour `~ N` has the lines `> TEXT` that follow in place of line N, or none.
//! Printed is what the judge says of each.

use crate::row::Row;
use anyhow::{Error, bail};
use qs_tools::{Journal, JournalFailed, check, read_journal};
use std::alloc::Global;

/// The most entries of a history here.
const MOST_ENTRIES: usize = 1_000;

/// The greatest line at which the entries begin.
const LAST_OPENING: u32 = 1_000;

/// What the judge says of the text of a history.
fn verdict(alloc: Global, text: &[u8]) -> Result<String, Error> {
    match read_journal(alloc, text) {
        Ok(journal) => {
            let said = judged(alloc, &journal);
            drop(journal);
            said
        }
        Err(JournalFailed::Fault { line }) => Ok(format!(in alloc; "no history at line {line}")?),
        Err(JournalFailed::NoMemory) => bail!("no memory"),
    }
}

/// What the judge says of a history.
fn judged(alloc: Global, journal: &Journal) -> Result<String, Error> {
    if journal.first > LAST_OPENING || journal.entries.len() > MOST_ENTRIES {
        bail!("the history is too long");
    }
    match check(alloc, journal) {
        Ok(None) => Ok(format!(in alloc; "lawful")?),
        Ok(Some((line, clause))) => {
            Ok(format!(in alloc; "unlawful at line {line}: clause {clause}")?)
        }
        Err(_) => bail!("no memory"),
    }
}

/// Prints what the judge says of the history with its change.
pub(crate) fn judge_history<R: AllocGlobal + Print>(rt: &R, row: &Row) -> Result<(), Error> {
    let text = row.with_change(rt.alloc())?;
    let said = verdict(rt.alloc(), text.as_bytes())?;
    match row.at {
        None => println!(rt; "  {said}")?,
        Some(at) => println!(rt; "  line {at} changed: {said}")?,
    }
    Ok(())
}
