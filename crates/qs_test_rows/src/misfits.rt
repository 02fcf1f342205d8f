//! Histories that are judged by their scripts: such as conform, and neighbours that break a clause or a rule.
//!
//! A row is a script and its history. A neighbour `~ N` has the lines `> TEXT` that follow in place of
//! line N and of all behind it. Printed is what the checker says of each.

use crate::row::Row;
use anyhow::{Context, Error, bail};
use qs_book_check::{Fault, Misfit, first_misfit};
use qs_text_script::{Script, ScriptFailed, read_script};
use qs_tools::{Journal, JournalFailed, read_journal};
use std::alloc::Global;

/// What the checker says of the texts of a script and a history.
fn verdict(alloc: Global, script: &str, history: &str) -> Result<String, Error> {
    let journal = journal_of(alloc, history)?;
    let said = said_of(alloc, script, &journal);
    drop(journal);
    said
}

fn journal_of(alloc: Global, history: &str) -> Result<Journal, Error> {
    match read_journal(alloc, history.as_bytes()) {
        Ok(journal) => Ok(journal),
        Err(JournalFailed::Fault { line }) => bail!("line {line} of a history does not read"),
        Err(JournalFailed::NoMemory) => bail!("no memory"),
    }
}

/// What the checker says of a history by the text of a script.
fn said_of(alloc: Global, script: &str, journal: &Journal) -> Result<String, Error> {
    let nodes = u8::try_from(journal.opened.len()).context("there are too many nodes")?;
    let script = script_of(alloc, script, nodes)?;
    let said = compared(alloc, &script, journal);
    drop(script);
    said
}

fn script_of(alloc: Global, script: &str, nodes: u8) -> Result<Script, Error> {
    match read_script(alloc, script.as_bytes(), nodes) {
        Ok(script) => Ok(script),
        Err(ScriptFailed::Fault { line, fault }) => {
            bail!("line {line} of the script: {fault:?}")
        }
        Err(ScriptFailed::NoMemory) => bail!("no memory"),
    }
}

fn compared(alloc: Global, script: &Script, journal: &Journal) -> Result<String, Error> {
    let opened = journal.opened.as_slice();
    let Ok(misfit) = first_misfit(alloc, script, opened, journal.entries.as_slice()) else {
        bail!("no memory");
    };
    match misfit {
        None => Ok(format!(in alloc; "conforms")?),
        Some(
            Misfit {
                place,
                fault: Fault::Unlawful { clause },
            },
        ) => Ok(format!(in alloc; "entry {place} breaks clause {clause}")?),
        Some(
            Misfit {
                place,
                fault: Fault::Broken { rule },
            },
        ) => Ok(format!(in alloc; "entry {place} breaks {rule:?}")?),
    }
}

/// Prints what the checker says of the history with its change.
pub(crate) fn judge_misfit<R: AllocGlobal + Print>(rt: &R, row: &Row) -> Result<(), Error> {
    let text = row.with_end(rt.alloc())?;
    let said = verdict(rt.alloc(), row.script.as_str(), text.as_str())?;
    match row.at {
        None => println!(rt; "  {said}")?,
        Some(end) => println!(rt; "  another from line {end} on: {said}")?,
    }
    Ok(())
}
