//! Calls each server of a node and the reference machine's table of that server, with the same drawn calls.
//!
//! Words: SEQUENCES SEED. Each sequence has 40 to 103 calls of at most six transactions: operations, votes, notices,
//! changes that a log kept, restarts and ticks. Every reply, vote, list of pending changes and list of contents is to be
//! the table's. `SERVER SEQUENCES sequences alike` is printed where that is so; what was drawn goes to standard error.
//!
//! Words: SHAPE SERVER COUNT. So many transactions or changes of one server, for `bench/servers` to count their
//! instructions. SHAPE is `commits`, `open` or `changes`. How many changes were done is printed.
#![tactic(auto)]

use anyhow::{Context, Error, bail};
use qs_base::{NoMemory, ServerNo};
use qs_ops::servers::{AUDIT, FILES, NAMES, SCRATCH, TIMERS, WINDOWS};
use rand_pcg::Lcg64Xsh32;
use std::alloc::Global;
use std::env;

mod calls;
mod drawn;
mod drill;
mod growing;
mod machine;
mod seen;

use drawn::Drawn;
use drill::Drill;
use growing::{Growing, Shape};
use seen::Seen;

/// How many sequences a server has, and what they are drawn by.
#[derive(Clone, Copy)]
struct Plan {
    sequences: u64,
    seed: u64,
}

fn number_of(word: &str) -> Result<u64, Error> {
    word.parse::<u64>().context("a word is no number")
}

/// Makes the sequences of a server, up to the first call that the table answers otherwise.
fn make_all(
    alloc: Global,
    server: ServerNo,
    name: &str,
    plan: Plan,
    seen: &mut Seen,
) -> Result<(), Error> {
    for number in 0..plan.sequences {
        let Ok(differing) = first_differing(alloc, server, plan.seed, number, seen) else {
            bail!("there is no memory");
        };
        if let Some(call) = differing {
            bail!("{name} differ in sequence {number} at call {call}");
        }
    }
    Ok(())
}

/// Makes a sequence. The number of the call that the table answers otherwise, if any.
fn first_differing(
    alloc: Global,
    server: ServerNo,
    seed: u64,
    number: u64,
    seen: &mut Seen,
) -> Result<Option<u32>, NoMemory> {
    let mut drawn = Drawn::new(Lcg64Xsh32::new(seed, number));
    let mut drill = Drill::new(alloc, server, &drawn);
    let alike = drill.run(&mut drawn, seen);
    let call = drill.calls();
    drop(drill);
    Ok(if alike? { None } else { Some(call) })
}

/// Makes the sequences of a server and tells that they were alike.
fn tell<R: AllocGlobal + Print + Eprint>(
    rt: &R,
    server: ServerNo,
    name: &str,
    plan: Plan,
) -> Result<(), Error> {
    let mut seen = Seen::new();
    make_all(rt.alloc(), server, name, plan, &mut seen)?;
    seen.tell(rt, name)?;
    println!(rt; "{name} {} sequences alike", plan.sequences)?;
    Ok(())
}

/// The server of that name.
fn server_named(word: &str) -> Option<ServerNo> {
    match word {
        "files" => Some(FILES),
        "audit" => Some(AUDIT),
        "names" => Some(NAMES),
        "timers" => Some(TIMERS),
        "windows" => Some(WINDOWS),
        "scratch" => Some(SCRATCH),
        _ => None,
    }
}

/// The shape of that name.
fn shape_named(word: &str) -> Option<Shape> {
    match word {
        "commits" => Some(Shape::Commits),
        "open" => Some(Shape::Open),
        "changes" => Some(Shape::Changes),
        _ => None,
    }
}

/// So many transactions or changes of a server, and how many changes were done.
fn grow(alloc: Global, shape: &str, server: &str, count: u64) -> Result<u32, Error> {
    let shape = shape_named(shape).context("a shape is none")?;
    let server = server_named(server).context("a server is none")?;
    let count = u32::try_from(count).context("a count is too great")?;
    let mut growing = Growing::new(alloc, server);
    let grown = growing.grow(shape, count);
    let done = growing.done;
    drop(growing);
    let Ok(()) = grown else {
        bail!("there is no memory");
    };
    Ok(done)
}

/// Makes the sequences of each server.
fn tell_all<R: AllocGlobal + Print + Eprint>(rt: &R, plan: Plan) -> Result<(), Error> {
    tell(rt, FILES, "files", plan)?;
    tell(rt, AUDIT, "audit", plan)?;
    tell(rt, NAMES, "names", plan)?;
    tell(rt, TIMERS, "timers", plan)?;
    tell(rt, WINDOWS, "windows", plan)?;
    tell(rt, SCRATCH, "scratch", plan)
}

fn main(rt: HostRuntime) -> Result<(), Error> {
    let mut words = Vec::new(rt.alloc());
    for word in env::args(&rt)?.skip(1) {
        words.push(word)?;
    }
    let (Some(first), Some(second)) = (words.get(0), words.get(1)) else {
        bail!("usage: qs_test_servers SEQUENCES SEED, or qs_test_servers SHAPE SERVER COUNT");
    };
    match words.get(2) {
        None => {
            let plan = Plan {
                sequences: number_of(first.as_str())?,
                seed: number_of(second.as_str())?,
            };
            tell_all(&rt, plan)
        }
        Some(count) => {
            let count = number_of(count.as_str())?;
            let done = grow(rt.alloc(), first.as_str(), second.as_str(), count)?;
            println!(rt; "done {done}")?;
            Ok(())
        }
    }
}
