//! Reads rows that were derived by hand, and prints what is made of each.
//!
//! A line `## KIND` of standard input says of which kind the rows behind it are, and a line `# NAME`
//! begins a row. The module of its kind says what else a row is made of:
//! - `histories`: histories that are judged, and neighbours of them that break a clause.
//! - `loads`: seeds, with the load scripts that they make.
//! - `misfits`: scripts with histories that are judged by them, and neighbours that do not conform.
//! - `scripts`: words and scripts, with their forms, meanings and faults; words of a run are compared with a command of `clap`.
//! - `texts`: words, scripts and histories, printed as the values that were read.
//!
//! What is to be printed stands beside this program, and was derived by hand too.
#![tactic(auto)]

mod command;
mod histories;
mod loads;
mod misfits;
mod printing;
mod row;
mod scripts;
mod shared;
mod texts;

use anyhow::{Context, Error, bail};
use histories::judge_history;
use loads::show_load;
use misfits::judge_misfit;
use row::Row;
use scripts::Scripts;
use std::alloc::Global;
use std::io::{BufRead, BufReader};
use texts::Texts;

/// What rows are made of.
#[derive(Clone, Copy)]
enum Kind {
    Histories,
    Loads,
    Misfits,
    Scripts,
    Texts,
}

/// The kind that a heading names.
fn kind_of(heading: &str) -> Result<Kind, Error> {
    match heading {
        "histories" => Ok(Kind::Histories),
        "loads" => Ok(Kind::Loads),
        "misfits" => Ok(Kind::Misfits),
        "scripts" => Ok(Kind::Scripts),
        "texts" => Ok(Kind::Texts),
        _ => bail!("a heading names no kind"),
    }
}

/// The rows of all kinds, as far as they were read.
#[derive(Drop)]
struct Rows {
    kind: Option<Kind>,
    row: Row,
    scripts: Scripts,
    texts: Texts,
}

impl Rows {
    fn new(alloc: Global) -> Rows {
        Rows {
            kind: None,
            row: Row::new(alloc),
            scripts: Scripts::new(),
            texts: Texts::new(alloc),
        }
    }

    /// Reads a line, and prints what is made of a row that ends before it.
    fn read<R: AllocGlobal + Print>(&mut self, rt: &R, line: &str) -> Result<(), Error> {
        if let Some(heading) = line.strip_prefix("## ") {
            self.finish(rt)?;
            self.kind = Some(kind_of(heading)?);
            println!(rt; "## {heading}")?;
        } else if let Some(name) = line.strip_prefix("# ") {
            self.finish(rt)?;
            println!(rt; "{name}")?;
        } else {
            self.add(rt, line)?;
        }
        Ok(())
    }

    /// Adds a line to a row.
    fn add<R: AllocGlobal + Print>(&mut self, rt: &R, line: &str) -> Result<(), Error> {
        match self.kind {
            Some(Kind::Histories) | Some(Kind::Misfits) => self.add_to_row(rt, line),
            Some(Kind::Loads) => show_load(rt, line),
            Some(Kind::Scripts) => self.scripts.add(rt, line),
            Some(Kind::Texts) => self.texts.add(rt, line),
            None => bail!("a line stands under no heading"),
        }
    }

    /// Adds a line to a history, or begins a neighbour of it.
    fn add_to_row<R: AllocGlobal + Print>(&mut self, rt: &R, line: &str) -> Result<(), Error> {
        if let Some(number) = line.strip_prefix("~ ") {
            self.judge(rt)?;
            let at = number.parse::<usize>().context("a line has no number")?;
            self.row.change_at(at);
            return Ok(());
        }
        self.row.add(rt.alloc(), line)
    }

    /// Prints what is made of the row that ends here.
    fn finish<R: AllocGlobal + Print>(&mut self, rt: &R) -> Result<(), Error> {
        self.scripts.finish(rt)?;
        if !self.row.is_empty() {
            self.judge(rt)?;
            self.row.clear();
        }
        Ok(())
    }

    /// Prints what is said of the history.
    fn judge<R: AllocGlobal + Print>(&self, rt: &R) -> Result<(), Error> {
        match self.kind {
            Some(Kind::Misfits) => judge_misfit(rt, &self.row),
            _ => judge_history(rt, &self.row),
        }
    }
}

/// Reads all rows.
fn read_all(rt: &HostRuntime, rows: &mut Rows) -> Result<(), Error> {
    for line in BufReader::new(rt.alloc(), rt.reader())?.lines(rt.alloc()) {
        rows.read(rt, line?.as_str())?;
    }
    rows.finish(rt)
}

fn main(rt: HostRuntime) -> Result<(), Error> {
    let mut rows = Rows::new(rt.alloc());
    let read = read_all(&rt, &mut rows);
    drop(rows);
    read
}
