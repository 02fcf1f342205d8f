//! The words of a run as a command of `clap` takes them.

use anyhow::{Error, bail};
use clap::{Arg, ArgAction, Command, value_parser};
use std::alloc::Global;

/// Fails where a command with a number of nodes, an option `--serial` and a flag `--journal` does not take these words, of which
/// the first is its name, or takes them for other values.
pub(crate) fn compare(
    alloc: Global,
    words: &[String],
    nodes: u8,
    serial: Option<u64>,
    journal: bool,
) -> Result<(), Error> {
    let number = Arg::new(alloc, "nodes")
        .required(true)
        .value_parser(value_parser!(u8));
    let seed = Arg::new(alloc, "serial")
        .long("serial")
        .value_parser(value_parser!(u64));
    let flag = Arg::new(alloc, "journal")
        .long("journal")
        .action(ArgAction::SetTrue);
    let command = Command::new(alloc, "run")
        .arg(number)?
        .arg(seed)?
        .arg(flag)?;
    let matches = command.try_get_matches_from(words)?;
    if matches.get_one::<u8>("nodes") != Some(nodes) {
        bail!("clap has another number of nodes");
    }
    if matches.get_one::<u64>("serial") != serial {
        bail!("clap has another seed");
    }
    if matches.get_flag("journal") != journal {
        bail!("clap has the flag otherwise");
    }
    Ok(())
}
