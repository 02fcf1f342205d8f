//! An audit server that serves a few transactions, with answers worked out by hand.
ghost use Rattle.std.specs.Prelude.{◌≡◌, true, IfOk};
ghost use Rattle.qs_ops.specs.Server.{is_own};
ghost use Rattle.qs_ops.specs.declared.operation.Op.TheVariants.{Notes};
ghost use Rattle.qs_ops.specs.declared.server.ServerKind.TheVariants as kinds;

use crate::samples::tid;
use qs_audit::Audit;
use qs_base::{Bytes, Class, List, NoMemory, Tid};
use qs_ops::{Changes, Notice, Op, Reason, Reply, Server, Vote};
use std::alloc::Global;
use std::test::Fail;

/// What a Prepare record of one note of one byte needs beside its frame.
const NEED: u64 = 23 + 6;

const FRAME: u64 = 169;

fn note(alloc: Global, text: &str) -> Result<Op, NoMemory>
    ensures { IfOk result (λ op. is_own kinds.Audit op ≡ true) }
{
    let text = Bytes::from_slice(alloc, text.as_bytes())?;
    Ok(Op::Note { text })
}

fn notes(alloc: Global, texts: &[&str]) -> Result<Changes, NoMemory> {
    let mut changes = List::new(alloc);
    for text in texts {
        changes.push(note(alloc, text)?)?;
    }
    Ok(changes)
}

/// The notes that the transaction sees.
fn seen<S: Server>(server: &mut S, tid: Tid) -> Result<usize, Fail>
    requires { is_own (S.state server.old).kind Notes ≡ true }
{
    let reply = server.serve(tid, &Op::Notes)?;
    let count = match &reply {
        Reply::Notes { list } => list.len(),
        _ => usize::MAX,
    };
    drop(reply);
    Ok(count)
}

fn is_done(alloc: Global, audit: &mut Audit) -> Result<bool, Fail> {
    let op = note(alloc, "x")?;
    let reply = audit.serve(tid(1), &op);
    drop(op);
    let reply = reply?;
    let is_done = matches!(reply, Reply::Done);
    drop(reply);
    Ok(is_done)
}

// A note is served and voted for.
fn is_voted(alloc: Global, audit: &mut Audit) -> Result<bool, Fail> {
    let is_done = is_done(alloc, audit)?;
    let is_recoverable = audit.vote(tid(1), FRAME + NEED, FRAME)? == Vote::Recoverable;
    let changes = audit.changes(tid(1))?;
    Ok(is_done && is_recoverable && changes == notes(alloc, &["x"])?)
}

// Once it is committed a transaction sees it, whose own vote is read-only.
fn is_seen(alloc: Global, audit: &mut Audit) -> Result<bool, Fail> {
    audit.note(tid(1), Notice::Commit);
    let is_seen = seen(audit, tid(2))? == 1;
    let is_read = audit.vote(tid(2), 0, FRAME)? == Vote::ReadOnly;
    Ok(is_seen && is_read && audit.contents()? == notes(alloc, &["x"])?)
}

fn commits(alloc: Global, audit: &mut Audit) -> Result<bool, Fail> {
    let is_voted = is_voted(alloc, audit)?;
    let is_seen = is_seen(alloc, audit)?;
    Ok(is_voted && is_seen && audit.class() == Class::Recoverable)
}

#[test]
fn a_committed_note_is_seen(rt: HostRuntime) -> Result<(), Fail> {
    let mut audit = Audit::new(rt.alloc());
    let is_right = commits(rt.alloc(), &mut audit);
    drop(audit);
    assert!(rt; is_right?);
    Ok(())
}

fn keep_two(alloc: Global, audit: &mut Audit) -> Result<(), Fail> {
    audit.keep(tid(1), &notes(alloc, &["x", "y"])?)?;
    audit.keep(tid(2), &notes(alloc, &["z"])?)?;
    Ok(())
}

// One is refused for want of room, the other one commits, and a restart forgets.
fn are_settled(audit: &mut Audit) -> Result<bool, Fail> {
    let reason = Reason::LogRoom {
        need: FRAME + NEED,
        room: 0,
    };
    let is_refused = audit.vote(tid(2), 0, FRAME)? == Vote::Abort { reason };
    audit.note(tid(2), Notice::Abort);
    audit.note(tid(1), Notice::Commit);
    let is_seen = seen(audit, tid(3))? == 2;
    audit.clear();
    Ok(is_refused && is_seen && seen(audit, tid(3))? == 0)
}

fn keeps(alloc: Global, audit: &mut Audit) -> Result<bool, Fail> {
    keep_two(alloc, audit)?;
    are_settled(audit)
}

#[test]
fn kept_notes_are_pending_until_their_outcome(rt: HostRuntime) -> Result<(), Fail> {
    let mut audit = Audit::new(rt.alloc());
    let is_right = keeps(rt.alloc(), &mut audit);
    drop(audit);
    assert!(rt; is_right?);
    Ok(())
}
