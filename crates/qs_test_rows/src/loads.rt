//! Load scripts, and what is read of them.
//!
//! A line `? SEED` asks for the load script of a seed. Printed are its length, its digest, its first lines and what is
//! read of it as a script for four nodes.

use crate::scripts::judge_script;
use anyhow::{Context, Error, bail};
use qs_gen::{NODE_COUNT, load_script};
use sha2::{Digest, Sha256};

/// How many of its lines are printed: the clients, and the first transaction.
const SHOWN: usize = 14;

/// Prints what is made of a seed.
pub(crate) fn show_load<R: AllocGlobal + Print>(rt: &R, line: &str) -> Result<(), Error> {
    let word = line.strip_prefix("? ").context("no seed is asked for")?;
    let seed = word.parse::<u64>().context("a seed is no number")?;
    let Ok(script) = load_script(rt.alloc(), seed) else {
        bail!("no memory");
    };
    let shown = show_script(rt, script.as_slice());
    drop(script);
    shown
}

/// Prints a load script.
fn show_script<R: AllocGlobal + Print>(rt: &R, script: &[u8]) -> Result<(), Error> {
    show_digest(rt, script)?;
    let text = str::from_utf8(script).context("a load script is no text")?;
    for line in text.lines().take(SHOWN) {
        println!(rt; "  |{line}")?;
    }
    judge_script(rt, script, NODE_COUNT)
}

/// Prints its length and its digest.
fn show_digest<R: Print>(rt: &R, script: &[u8]) -> Result<(), Error> {
    let mut hasher = Sha256::new();
    hasher.update(script);
    let digest = hasher.finalize();
    print!(rt; "  {} bytes, SHA-256 ", script.len())?;
    for byte in digest.iter() {
        print!(rt; "{byte:02x}")?;
    }
    println!(rt)?;
    Ok(())
}
