//! What rows of words and scripts have in common.

use anyhow::{Context, Error, bail};
use qs_text_script::{ScriptFault, Status, status_line};
use std::alloc::Global;

/// Adds a line, with its line feed.
pub(crate) fn add_line(text: &mut String, line: &str) -> Result<(), Error> {
    text.push_str(line)?;
    text.push_str("\n")?;
    Ok(())
}

/// The words of a line, one or more blanks between two.
pub(crate) fn words_of(alloc: Global, line: &str) -> Result<Vec<String>, Error> {
    let mut words = Vec::new(alloc);
    for word in line.split(' ') {
        if !word.is_empty() {
            words.push(String::from_str(alloc, word)?)?;
        }
    }
    Ok(words)
}

/// Prints the line of a status.
pub(crate) fn tell<R: AllocGlobal + Print>(rt: &R, status: &Status) -> Result<(), Error> {
    let Ok(line) = status_line(rt.alloc(), status) else {
        bail!("no memory");
    };
    let text = str::from_utf8(line.as_slice()).context("a status is no text")?;
    println!(rt; "  {text}")?;
    Ok(())
}

/// Prints the line of a script's fault.
pub(crate) fn tell_fault<R: AllocGlobal + Print>(
    rt: &R,
    line: u32,
    fault: ScriptFault,
) -> Result<(), Error> {
    let status = Status::Script { line, fault };
    let told = tell(rt, &status);
    drop(status);
    told
}
