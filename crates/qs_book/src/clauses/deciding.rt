//! Ask, counted and decide.
ghost use Rattle.std.specs.Prelude.{◌≡◌};
ghost use Rattle.std.specs.Option.{option_copied};
ghost use Rattle.qs_book_machine.specs.Clauses.{may_ask, broken_ask, may_count, broken_counted, may_decide, has_no_record, is_room_cause, is_old, is_gone_cause, is_cause, broken_outcome, broken_decide};

use crate::clauses::{
    ABORT_HAS_ITS_CAUSE, ASK_ONCE, COUNTED_PEER, DECIDE_ONCE_AT_HOME, UNANIMOUS_COMMIT,
};
use crate::node::BookNode;
use qs_base::{NodeNo, Outcome, Stamp, Tid};
use qs_book_machine::{Cell, Link};
use qs_book_transactions::Transaction;
use qs_ops::Cause;
use qs_ops::servers::{AUDIT, EXTRA, FILES};

/// The first clause that asking for commit at `here` breaks.
pub fn broken_ask(here: NodeNo, tid: Tid, tx: Option<&Transaction>) -> Option<u16>
    ensures { result ≡ broken_ask here.0 tid (option_copied tx.entry) }
{
    match tx {
        Some(tx) if may_ask(here, tid, tx) => None,
        _ => Some(ASK_ONCE),
    }
}

fn may_ask(here: NodeNo, tid: Tid, tx: &Transaction) -> bool
    ensures { result ≡ may_ask here.0 tid tx.now }
{
    tid.home == here && tx.cell() == Cell::Open && !tx.is_asked()
}

/// The first clause that counting a peer's answer at `here` breaks, in a run of so many nodes.
pub fn broken_counted(
    here: NodeNo,
    node: &BookNode,
    nodes: usize,
    tx: Option<&Transaction>,
    peer: NodeNo,
    up_to: u32,
) -> Option<u16>
    ensures { result ≡ broken_counted here.0 node.now nodes (option_copied tx.entry) peer up_to }
{
    match tx {
        Some(tx) if may_count(here, node, nodes, tx, peer, up_to) => None,
        _ => Some(COUNTED_PEER),
    }
}

fn may_count(
    here: NodeNo,
    node: &BookNode,
    nodes: usize,
    tx: &Transaction,
    peer: NodeNo,
    up_to: u32,
) -> bool
    ensures { result ≡ may_count here.0 node.now nodes tx.now peer up_to }
{
    let link = Link {
        from: here,
        to: peer,
    };
    peer.0 != here.0 && usize::from(peer.0) < nodes && up_to <= tx.sent_in(link, node.inc())
}

/// The first clause that a decision at `here` breaks, in a step of this stamp.
pub fn broken_decide(
    here: NodeNo,
    node: &BookNode,
    nodes: &[BookNode],
    tid: Tid,
    tx: Option<&Transaction>,
    stamp: Stamp,
    outcome: Outcome,
    cause: Option<&Cause>,
) -> Option<u16>
    ensures { result ≡ broken_decide here.0 node.now nodes.now tid (option_copied tx.entry) stamp outcome (option_copied cause.entry) }
{
    match tx {
        Some(tx) if may_decide(here, tid, tx) => {
            broken_outcome(node, nodes, tid, tx, stamp, outcome, cause)
        }
        _ => Some(DECIDE_ONCE_AT_HOME),
    }
}

fn may_decide(here: NodeNo, tid: Tid, tx: &Transaction) -> bool
    ensures { result ≡ may_decide here.0 tid tx.now }
{
    tid.home == here && tx.cell() == Cell::Open
}

fn broken_outcome(
    node: &BookNode,
    nodes: &[BookNode],
    tid: Tid,
    tx: &Transaction,
    stamp: Stamp,
    outcome: Outcome,
    cause: Option<&Cause>,
) -> Option<u16>
    ensures { result ≡ broken_outcome node.now nodes.now tid tx.now stamp outcome (option_copied cause.entry) }
{
    match (outcome, cause) {
        (Outcome::Commit, None) if tx.is_unanimous() => None,
        (Outcome::Commit, _) => Some(UNANIMOUS_COMMIT),
        (Outcome::Abort, Some(cause)) if is_cause(node, nodes, tid, tx, stamp, cause) => None,
        (Outcome::Abort, _) => Some(ABORT_HAS_ITS_CAUSE),
    }
}

fn has_no_record(node: &BookNode, tid: Tid) -> bool
    ensures { result ≡ has_no_record node.now tid }
{
    node.record(tid, FILES).is_none()
        && node.record(tid, AUDIT).is_none()
        && node.record(tid, EXTRA).is_none()
}

fn is_room_cause(
    node: &BookNode,
    nodes: usize,
    tid: Tid,
    tx: &Transaction,
    need: u64,
    room: u64,
) -> bool
    ensures { result ≡ is_room_cause node.now nodes tid tx.now need room }
{
    let base = 56 + node.extra() + node.keep();
    tx.is_unanimous()
        && has_no_record(node, tid)
        && base < need
        && need - base < nodes as u64
        && room < need
}

fn is_old(node: &BookNode, tx: &Transaction, stamp: Stamp, age: u64) -> bool
    ensures { result ≡ is_old node.now tx.now stamp age }
{
    let ticks = node.timers().ticks();
    age > 0 && ticks.checked_sub(tx.begun_at()) == Some(age) && node.ticked() == stamp
}

fn is_gone_cause(peer: Option<&BookNode>, tx: &Transaction, node: NodeNo, inc: u64) -> bool
    ensures { result ≡ is_gone_cause (option_copied peer.entry) tx.now node inc }
{
    match peer {
        Some(peer) => peer.had(inc) && tx.is_gone(node, peer.inc(), inc),
        None => false,
    }
}

fn is_cause(
    node: &BookNode,
    nodes: &[BookNode],
    tid: Tid,
    tx: &Transaction,
    stamp: Stamp,
    cause: &Cause,
) -> bool
    ensures { result ≡ is_cause node.now nodes.now tid tx.now stamp cause.now }
{
    match cause {
        Cause::Asked => !tx.is_asked(),
        Cause::Voted { member, reason } => tx.has_refusal(*member, reason),
        Cause::Gone { node: peer, inc } => {
            is_gone_cause(nodes.get(usize::from(peer.0)), tx, *peer, *inc)
        }
        Cause::Home { .. } => false,
        Cause::Room { need, room } => is_room_cause(node, nodes.len(), tid, tx, *need, *room),
        Cause::Old { age } => is_old(node, tx, stamp, *age),
    }
}
