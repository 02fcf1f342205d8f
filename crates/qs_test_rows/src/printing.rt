//! Prints a script that was read.

use anyhow::{Context, Error};
use qs_base::Bytes;
use qs_book_journal::{Command, Point, PointKind, ScriptLine};
use qs_ops::Op;
use qs_text_script::{FaultLine, Planned, Script};

/// The most commands that are printed one by one.
const MOST: usize = 40;

/// Prints its clients, quotas, audit, faults and commands, and the count of its lines.
pub(crate) fn print_script<R: AllocGlobal + Print>(rt: &R, script: &Script) -> Result<(), Error> {
    for seat in script.seats.as_slice() {
        println!(rt; "  client {} at {}", seat.client.0, seat.node.0)?;
    }
    for quota in script.quotas.as_slice() {
        println!(rt; "  quota of {} is {}", quota.node.0, quota.bytes)?;
    }
    if let Some(node) = script.audit {
        println!(rt; "  audit at {}", node.0)?;
    }
    for line in script.faults.as_slice() {
        print_fault(rt, line)?;
    }
    if script.lines.len() <= MOST {
        for line in script.lines.as_slice() {
            print_command(rt, line)?;
        }
    }
    println!(rt; "  {} commands, {} lines", script.lines.len(), script.count)?;
    Ok(())
}

/// The bytes as text.
fn text_of(bytes: &Bytes) -> Result<&str, Error> {
    str::from_utf8(bytes.as_slice()).context("a word is no text")
}

fn print_fault<R: AllocGlobal + Print>(rt: &R, line: &FaultLine) -> Result<(), Error> {
    print!(rt; "  {}: ", line.line)?;
    match &line.fault {
        Planned::Crash { node, event } => println!(rt; "crash of {} at event {event}", node.0)?,
        Planned::Stop { node, call } => println!(rt; "stop of {} at call {call}", node.0)?,
        Planned::At { node, point } => {
            print!(rt; "stop of {} ", node.0)?;
            print_point(rt, point)?;
        }
        Planned::Drop { from, to, packet } => {
            println!(rt; "drop from {} to {} packet {packet}", from.0, to.0)?;
        }
        Planned::Again { from, to, packet } => {
            println!(rt; "repeat from {} to {} packet {packet}", from.0, to.0)?;
        }
        Planned::Hold {
            from,
            to,
            packet,
            count,
        } => println!(rt;
            "hold from {} to {} packet {packet} for {count}",
            from.0, to.0
        )?,
    }
    Ok(())
}

fn print_point<R: AllocGlobal + Print>(rt: &R, point: &Point) -> Result<(), Error> {
    let side = if point.after { "after" } else { "before" };
    let kind = match point.kind {
        PointKind::Serve => "serve",
        PointKind::Vote => "vote",
        PointKind::Decide => "decide",
        PointKind::Learn => "learn",
    };
    println!(rt; "{side} {kind} of {}", text_of(&point.label)?)?;
    Ok(())
}

fn print_command<R: AllocGlobal + Print>(rt: &R, line: &ScriptLine) -> Result<(), Error> {
    let label = text_of(&line.label)?;
    print!(rt; "  {}: {} {label} ", line.line, line.client.0)?;
    match &line.command {
        Command::Begin => println!(rt; "begin")?,
        Command::Commit => println!(rt; "commit")?,
        Command::Abort => println!(rt; "abort")?,
        Command::Take => println!(rt; "take")?,
        Command::Yield => println!(rt; "yield")?,
        Command::Request { member, op } => {
            print!(rt; "{}@{} ", member.server.0, member.node.0)?;
            print_op(rt, op)?;
        }
    }
    Ok(())
}

fn print_op<R: AllocGlobal + Print>(rt: &R, op: &Op) -> Result<(), Error> {
    match op {
        Op::Put { name, text } => print_change(rt, "put", name, text),
        Op::Append { name, text } => print_change(rt, "append", name, text),
        Op::Bind { name, text } => print_change(rt, "bind", name, text),
        Op::Window { name, text } => print_change(rt, "window", name, text),
        Op::Keep { name, text } => print_change(rt, "keep", name, text),
        Op::Del { name } => print_named(rt, "del", name),
        Op::Get { name } => print_named(rt, "get", name),
        Op::Find { name } => print_named(rt, "find", name),
        Op::Left { name } => print_named(rt, "left", name),
        Op::Title { name } => print_named(rt, "title", name),
        Op::Fetch { name } => print_named(rt, "fetch", name),
        Op::Note { text } => print_named(rt, "note", text),
        other => print_other(rt, other),
    }
}

fn print_other<R: AllocGlobal + Print>(rt: &R, op: &Op) -> Result<(), Error> {
    match op {
        Op::Timer { name, ticks } => println!(rt; "timer {} {ticks}", text_of(name)?)?,
        Op::Lend { client } => println!(rt; "lend {}", client.0)?,
        Op::Listing => println!(rt; "list")?,
        Op::Notes => println!(rt; "notes")?,
        _ => println!(rt; "other")?,
    }
    Ok(())
}

fn print_named<R: AllocGlobal + Print>(rt: &R, word: &str, name: &Bytes) -> Result<(), Error> {
    println!(rt; "{word} {}", text_of(name)?)?;
    Ok(())
}

fn print_change<R: AllocGlobal + Print>(
    rt: &R,
    word: &str,
    name: &Bytes,
    text: &Bytes,
) -> Result<(), Error> {
    println!(rt; "{word} {} {}", text_of(name)?, text_of(text)?)?;
    Ok(())
}
