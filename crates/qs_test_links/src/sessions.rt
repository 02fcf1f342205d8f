//! Sessions between nodes that crash and restart, over links that lose, repeat and hold packets by drawn plans, in
//! drawn runs.
//!
//! Each run has two or three nodes and 40 to 119 drawn events, and then ticks alone. Within `TICKS` ticks after the
//! last fault each end is to know its peer's incarnation, and each message that an incarnation has for another, where
//! both live on, is to be handed up, in order and once.

mod drawn;
mod end;
mod failed;
mod link;
mod run;

use anyhow::{Context, Error, bail};
use drawn::Drawn;
use rand_pcg::Lcg64Xsh32;
use run::Run;
use std::alloc::Global;

/// Within how many ticks after the last fault a run is to settle.
const TICKS: u32 = 4;

/// How many runs there are, and what they are drawn by.
#[derive(Clone, Copy)]
struct Plan {
    runs: u64,
    seed: u64,
}

/// The plan that the words tell.
fn plan_of(words: &str) -> Result<Plan, Error> {
    let (runs, seed) = words
        .split_once(' ')
        .context("a number of runs has no seed")?;
    Ok(Plan {
        runs: runs.parse::<u64>().context("a word is no number")?,
        seed: seed.parse::<u64>().context("a word is no number")?,
    })
}

/// What was drawn in the runs of a plan, where each of them settled.
fn settled(alloc: Global, plan: Plan) -> Result<Drawn, Error> {
    let mut drawn = Drawn::new(Lcg64Xsh32::new(plan.seed, 0));
    for number in 0..plan.runs {
        drawn.begin(Lcg64Xsh32::new(plan.seed, number));
        let mut run = Run::new(alloc, &mut drawn)?;
        let settled = run.drive(alloc, TICKS, &mut drawn);
        drop(run);
        if !settled? {
            bail!("run {number} did not settle");
        }
    }
    Ok(drawn)
}

/// Drives the runs that the words tell, and prints that they settled.
pub(crate) fn run_sessions<R: AllocGlobal + Print + Eprint>(
    rt: &R,
    words: &str,
) -> Result<(), Error> {
    let plan = plan_of(words)?;
    let drawn = settled(rt.alloc(), plan)?;
    eprintln!(rt;
        "sent {} lost {} repeated {} held {} restarts {} most ticks {}",
        drawn.sent, drawn.lost, drawn.repeated, drawn.held, drawn.restarts, drawn.ticks
    )?;
    println!(rt; "settled {}", plan.runs)?;
    Ok(())
}
