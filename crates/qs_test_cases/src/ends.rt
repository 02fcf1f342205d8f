//! What a run may come to.

use anyhow::{Context, Error};
use std::alloc::Global;

/// The line of a status, and the output.
#[derive(Drop)]
pub struct End {
    pub status: String,
    pub output: String,
    /// How lines behind it end, in order.
    pub later: Vec<String>,
}

impl End {
    pub fn new(alloc: Global, status: &str) -> Result<End, Error> {
        Ok(End {
            status: String::from_str(alloc, status)?,
            output: String::new(alloc),
            later: Vec::new(alloc),
        })
    }

    /// Takes in a line of the output.
    pub fn add(&mut self, alloc: Global, line: &str) -> Result<(), Error> {
        if let Some(text) = line.strip_prefix(">") {
            self.output.push_str(text)?;
            self.output.push_str("\n")?;
        } else if let Some(text) = line.strip_prefix("<") {
            self.output.push_str(text)?;
        } else if let Some(rest) = line.strip_prefix("^") {
            self.repeat(rest)?;
        } else if let Some(rest) = line.strip_prefix(":") {
            self.count(alloc, rest)?;
        } else if let Some(text) = line.strip_prefix("~") {
            self.later.push(String::from_str(alloc, text)?)?;
        }
        Ok(())
    }

    /// A text so many times.
    fn repeat(&mut self, line: &str) -> Result<(), Error> {
        let (count, text) = line.split_once(" ").context("a count has no text")?;
        for _turn in 0..count.parse::<u32>().context("a count is no number")? {
            self.output.push_str(text)?;
        }
        Ok(())
    }

    /// Lines with their numbers.
    fn count(&mut self, alloc: Global, line: &str) -> Result<(), Error> {
        let (from, rest) = line.split_once(" ").context("a range has no end")?;
        let (to, text) = rest.split_once(" ").context("a range has no text")?;
        let from = from
            .parse::<u32>()
            .context("a range begins with no number")?;
        let to = to.parse::<u32>().context("a range ends with no number")?;
        for number in from..=to {
            self.output
                .push_str(format!(in alloc; "{number} {text}\n")?.as_str())?;
        }
        Ok(())
    }

    /// Whether a run came to it.
    pub fn is(&self, status: &str, output: &str) -> bool {
        if !is_like(self.status.as_str(), status) {
            return false;
        }
        match output.strip_prefix(self.output.as_str()) {
            Some(rest) => self.goes_on(rest),
            None => false,
        }
    }

    /// Whether lines end as they should behind the front of the output.
    fn goes_on(&self, rest: &str) -> bool {
        if self.later.is_empty() {
            return rest.is_empty();
        }
        let mut lines = rest.split('\n');
        self.later.iter().all(|end| lines.any(|line| line.strip_suffix(end.as_str()).is_some()))
    }
}

/// Whether a line is this text, in which a star stands for any.
fn is_like(text: &str, line: &str) -> bool {
    match text.split_once("*") {
        None => text == line,
        Some((front, end)) => {
            line.strip_prefix(front).is_some() && line.strip_suffix(end).is_some()
        }
    }
}
