//! Words and scripts whose forms, meanings and faults were derived by hand.
//!
//! A line `? WORD ..` has the words after the program's name. A line `= N` begins a script for N nodes,
//! and its text follows: `|TEXT` is a line, `!TEXT` a part of a line without a line feed, `*COUNT TEXT`
//! so many equal lines, and `+COUNT TEXT` so many equal parts. Printed is what is read of each.

use crate::command::compare;
use crate::printing::print_script;
use crate::shared::{add_line, tell_fault, words_of};
use anyhow::{Context, Error, bail};
use qs_text_script::{Form, ScriptFailed, read_script, read_words};

/// A script, and how many nodes it is for.
#[derive(Drop)]
struct ScriptText {
    nodes: u8,
    text: String,
}

impl ScriptText {
    /// Adds what a line of a row says of its text.
    fn add(&mut self, line: &str) -> Result<(), Error> {
        if let Some(text) = line.strip_prefix("|") {
            add_line(&mut self.text, text)?;
        } else if let Some(text) = line.strip_prefix("!") {
            self.text.push_str(text)?;
        } else if let Some(rest) = line.strip_prefix("*") {
            self.repeat(rest, "\n")?;
        } else if let Some(rest) = line.strip_prefix("+") {
            self.repeat(rest, "")?;
        } else {
            bail!("a line of a row begins with no mark");
        }
        Ok(())
    }

    /// Adds a text so many times, each time with an end.
    fn repeat(&mut self, line: &str, end: &str) -> Result<(), Error> {
        let (count, text) = line.split_once(" ").context("a count has no text")?;
        for _turn in 0..count.parse::<u32>().context("a count is no number")? {
            self.text.push_str(text)?;
            self.text.push_str(end)?;
        }
        Ok(())
    }
}

/// Prints what is read of a script for so many nodes.
pub(crate) fn judge_script<R: AllocGlobal + Print>(
    rt: &R,
    text: &[u8],
    nodes: u8,
) -> Result<(), Error> {
    match read_script(rt.alloc(), text, nodes) {
        Ok(script) => {
            let printed = print_script(rt, &script);
            drop(script);
            printed
        }
        Err(ScriptFailed::Fault { line, fault }) => tell_fault(rt, line, fault),
        Err(ScriptFailed::NoMemory) => bail!("no memory"),
    }
}

/// The script that is being read, if one is.
#[derive(Drop)]
pub(crate) struct Scripts {
    row: Option<ScriptText>,
}

impl Scripts {
    pub(crate) fn new() -> Scripts {
        Scripts { row: None }
    }

    /// Reads a line of a script, of words, or that begins a script.
    pub(crate) fn add<R: AllocGlobal + Print>(&mut self, rt: &R, line: &str) -> Result<(), Error> {
        if let Some(next) = self.row.as_mut() {
            if !is_head(line) {
                return next.add(line);
            }
        }
        self.finish(rt)?;
        if let Some(words) = line.strip_prefix("?") {
            return print_form(rt, words);
        }
        let nodes = line
            .strip_prefix("= ")
            .context("a line stands in no script")?;
        self.row = Some(ScriptText {
            nodes: nodes.parse::<u8>().context("the nodes are no number")?,
            text: String::new(rt.alloc()),
        });
        Ok(())
    }

    /// Prints what is read of the script that ends here, if one does.
    pub(crate) fn finish<R: AllocGlobal + Print>(&mut self, rt: &R) -> Result<(), Error> {
        if let Some(last) = self.row.as_ref() {
            judge_script(rt, last.text.as_bytes(), last.nodes)?;
        }
        self.row = None;
        Ok(())
    }
}

/// Prints the form that words are of, and fails where a command of `clap` takes those of a run otherwise.
fn print_form<R: AllocGlobal + Print>(rt: &R, line: &str) -> Result<(), Error> {
    let words = words_of(rt.alloc(), line)?;
    match read_words(words.as_slice()) {
        Ok(
            Form::Run {
                nodes,
                serial,
                journal,
            },
        ) => {
            compare(rt.alloc(), words.as_slice(), nodes, serial, journal)?;
            println!(rt;
                "  run nodes {nodes} serial {serial:?} journal {journal}, and so by clap"
            )?;
        },
        Ok(Form::Check) => println!(rt; "  check")?,
        Ok(Form::Load { seed }) => println!(rt; "  load seed {seed}")?,
        Err(_) => println!(rt; "  usage")?,
    }
    Ok(())
}

/// Whether the line begins something new.
fn is_head(line: &str) -> bool {
    line.strip_prefix("?").is_some() || line.strip_prefix("=").is_some()
}
