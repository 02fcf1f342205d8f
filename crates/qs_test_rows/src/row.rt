//! A row of a history, with its script where it has one, and a change of it.
//!
//! `|TEXT` is a line of the script, and the lines without a mark are the history. A line `~ N` behind
//! these begins a neighbour of it, which changes at line N; `> TEXT` is a line of what stands there.

use crate::shared::add_line;
use anyhow::Error;
use std::alloc::Global;

/// A history, with its script and a change: the line where it changes, from 1, and what stands there.
#[derive(Drop)]
pub(crate) struct Row {
    pub(crate) script: String,
    lines: Vec<String>,
    pub(crate) at: Option<usize>,
    change: Vec<String>,
}

impl Row {
    /// One with nothing in it yet.
    pub(crate) fn new(alloc: Global) -> Row {
        Row {
            script: String::new(alloc),
            lines: Vec::new(alloc),
            at: None,
            change: Vec::new(alloc),
        }
    }

    /// Whether it has no history.
    pub(crate) fn is_empty(&self) -> bool {
        self.lines.is_empty()
    }

    /// Adds a line of the script, of the change or of the history.
    pub(crate) fn add(&mut self, alloc: Global, line: &str) -> Result<(), Error> {
        if let Some(text) = line.strip_prefix("|") {
            add_line(&mut self.script, text)
        } else if let Some(other) = line.strip_prefix("> ") {
            push_line(alloc, &mut self.change, other)
        } else {
            push_line(alloc, &mut self.lines, line)
        }
    }

    /// Makes it its neighbour that changes at this line, where nothing stands yet.
    pub(crate) fn change_at(&mut self, at: usize) {
        self.change.clear();
        self.at = Some(at);
    }

    /// Makes it another row, with nothing in it yet.
    pub(crate) fn clear(&mut self) {
        self.script.clear();
        self.lines.clear();
        self.at = None;
        self.change.clear();
    }

    /// The text of the history where the change stands in place of its line.
    pub(crate) fn with_change(&self, alloc: Global) -> Result<String, Error> {
        let mut text = String::new(alloc);
        for (place, line) in self.lines.iter().enumerate() {
            if Some(place + 1) == self.at {
                add_lines(&mut text, self.change.as_slice())?;
            } else {
                add_line(&mut text, line)?;
            }
        }
        Ok(text)
    }

    /// The text of the history where the change stands in place of its line and of all behind it.
    pub(crate) fn with_end(&self, alloc: Global) -> Result<String, Error> {
        let mut text = String::new(alloc);
        for (place, line) in self.lines.iter().enumerate() {
            if Some(place + 1) == self.at {
                break;
            }
            add_line(&mut text, line)?;
        }
        add_lines(&mut text, self.change.as_slice())?;
        Ok(text)
    }
}

/// Adds the lines, each with its line feed.
fn add_lines(text: &mut String, lines: &[String]) -> Result<(), Error> {
    for line in lines {
        add_line(text, line)?;
    }
    Ok(())
}

fn push_line(alloc: Global, lines: &mut Vec<String>, line: &str) -> Result<(), Error> {
    lines.push(String::from_str(alloc, line)?)?;
    Ok(())
}
