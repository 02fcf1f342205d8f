//! What entries do to the nodes.
ghost use Rattle.std.specs.Prelude.{◌≡◌, OnOk, IfOk, Some, map};
ghost use Rattle.qs_book_machine.specs.Book.{changed_at, server_serve, crossed_serve, serve_node, vote_node, learn_node, doubts_after, end_node, tick_node, crash_node};
ghost use Rattle.qs_book_machine.specs.Restart.{with_votes, restarted_node};
ghost use Rattle.qs_book_machine.specs.Nodes.{bound_names, crossed_node};
ghost use Rattle.qs_book_machine.specs.declared.transaction.Request.{Request};

use crate::found::FoundVotes;
use crate::node::{BookNode, bound_names};
use qs_base::{Bytes, Copied, List, Member, NoMemory, NodeNo, Outcome, ServerNo, Stamp, Tid};
use qs_book_machine::{OnRecord, Reopened, Request, RequestNo, Voter};
use qs_book_transactions::Transaction;
use qs_ops::servers::NAMES;
use qs_ops::{Op, Reply, Vote};
use std::alloc::Global;

/// So many transactions were begun at the node in its incarnation.
pub fn begin(nodes: &mut Vec<BookNode>, here: NodeNo, seq: u32)
    ensures { nodes.new.items ≡ changed_at here.0 (λ node. record node { begun = seq }) nodes.old.items }
{
    let place = usize::from(here.0);
    if place < nodes.len() {
        nodes[place].begin(seq);
    }
}

/// From now on what the transaction holds at the member is not known.
pub fn cross(nodes: &mut Vec<BookNode>, tid: Tid, member: Member) -> Result<(), NoMemory>
    ensures { OnOk result (nodes.new.items ≡ changed_at member.node.0 (crossed_node tid member.server.0) nodes.old.items) }
{
    let place = usize::from(member.node.0);
    if place < nodes.len() {
        nodes[place].cross(tid, member.server)?;
    }
    Ok(())
}

/// A member of the node with so many changes pending votes.
pub fn vote(
    nodes: &mut Vec<BookNode>,
    here: NodeNo,
    pending: u64,
    crossed: bool,
    tid: Tid,
    server: ServerNo,
    vote: &Vote,
    covers: u32,
) -> Result<(), NoMemory>
    ensures { OnOk result (nodes.new.items ≡ changed_at here.0 (vote_node pending crossed tid server.0 vote.now covers) nodes.old.items) }
{
    let place = usize::from(here.0);
    if place < nodes.len() {
        nodes[place].vote(pending, crossed, tid, server, vote, covers)?;
    }
    Ok(())
}

/// A member of the node learns the outcome.
pub fn learn(
    nodes: &mut Vec<BookNode>,
    here: NodeNo,
    outcome: Outcome,
    tid: Tid,
    server: ServerNo,
) -> Result<(), NoMemory>
    ensures { OnOk result (nodes.new.items ≡ changed_at here.0 (λ node. doubts_after tid server.0 (learn_node outcome tid server.0 node)) nodes.old.items) }
{
    let place = usize::from(here.0);
    if place < nodes.len() {
        learn_at(&mut nodes[place], outcome, tid, server)?;
    }
    Ok(())
}

fn learn_at(
    node: &mut BookNode,
    outcome: Outcome,
    tid: Tid,
    server: ServerNo,
) -> Result<(), NoMemory>
    ensures { OnOk result (node.new ≡ doubts_after tid server.0 (learn_node outcome tid server.0 node.old)) }
{
    node.learn(outcome, tid, server)?;
    if server == NAMES {
        node.settle_doubts(tid);
    }
    Ok(())
}

/// The timers of the transaction at the node are dropped.
pub fn end(nodes: &mut Vec<BookNode>, here: NodeNo, tid: Tid)
    ensures { nodes.new.items ≡ changed_at here.0 (end_node tid) nodes.old.items }
{
    let place = usize::from(here.0);
    if place < nodes.len() {
        nodes[place].end(tid);
    }
}

/// One tick of the node's timers, in a step of this stamp.
pub fn tick(nodes: &mut Vec<BookNode>, here: NodeNo, stamp: Stamp) -> Result<(), NoMemory>
    ensures { OnOk result (nodes.new.items ≡ changed_at here.0 (tick_node stamp) nodes.old.items) }
{
    let place = usize::from(here.0);
    if place < nodes.len() {
        nodes[place].tick(stamp)?;
    }
    Ok(())
}

/// The node stops, at this place in the history.
pub fn crash(nodes: &mut Vec<BookNode>, here: NodeNo, at: u64)
    ensures { nodes.new.items ≡ changed_at here.0 (crash_node at) nodes.old.items }
{
    let place = usize::from(here.0);
    if place < nodes.len() {
        nodes[place].crash(at);
    }
}

/// A member of the node serves a request of the transaction with this reply.
pub fn serve(
    alloc: Global,
    nodes: &mut Vec<BookNode>,
    here: NodeNo,
    tx: &Transaction,
    at: RequestNo,
    tid: Tid,
    member: Member,
    reply: &Reply,
) -> Result<(), NoMemory>
    ensures { OnOk result (nodes.new.items ≡ changed_at here.0 (serve_node (Some tx.now) at tid member reply.now) nodes.old.items) }
{
    let place = usize::from(here.0);
    if place < nodes.len() {
        serve_at(alloc, &mut nodes[place], tx, at, tid, member, reply)?;
    }
    Ok(())
}

fn serve_at(
    alloc: Global,
    node: &mut BookNode,
    tx: &Transaction,
    at: RequestNo,
    tid: Tid,
    member: Member,
    reply: &Reply,
) -> Result<(), NoMemory>
    ensures { OnOk result (node.new ≡ serve_node (Some tx.now) at tid member reply.now node.old) }
{
    if tx.is_crossed(member) {
        return crossed_serve(alloc, node, member.server, tid, tx.requests_at(at), reply);
    }
    match tx.standing_request(at, member) {
        Some(request) => node.serve(member.server, tid, &request.op, reply),
        None => Ok(()),
    }
}

fn crossed_serve(
    alloc: Global,
    node: &mut BookNode,
    server: ServerNo,
    tid: Tid,
    requests: &[Request],
    reply: &Reply,
) -> Result<(), NoMemory>
    ensures { OnOk result (node.new ≡ crossed_serve server.0 tid requests.now reply.now node.old) }
{
    match reply {
        Reply::Done if server == NAMES => {
            let names = names_of(alloc, requests)?;
            node.add_doubts(tid, names)
        }
        _ => Ok(()),
    }
}

/// The names that these requests bind.
fn names_of(alloc: Global, requests: &[Request]) -> Result<List<Bytes>, NoMemory>
    ensures { IfOk result (λ names. names ≡ bound_names (map (λ (request : Request). request.op) requests.now)) }
{
    let mut ops = List::new(alloc);
    for request in requests {
        ops.push(request.op.copy()?)?;
    }
    bound_names(alloc, ops.as_slice())
}

/// Votes that a restart found go on record.
pub fn put_votes(
    nodes: &mut Vec<BookNode>,
    here: NodeNo,
    votes: Vec<(Voter, OnRecord)>,
) -> Result<(), NoMemory>
    ensures { OnOk result (nodes.new.items ≡ changed_at here.0 (with_votes votes.items) nodes.old.items) }
{
    let place = usize::from(here.0);
    if place < nodes.len() {
        put_votes_at(&mut nodes[place], votes)?;
    } else {
        drop(votes);
    }
    Ok(())
}

fn put_votes_at(node: &mut BookNode, votes: Vec<(Voter, OnRecord)>) -> Result<(), NoMemory>
    ensures { OnOk result (node.new ≡ with_votes votes.items node.old) }
{
    for (voter, vote) in votes {
        node.put_vote(voter, vote)?;
    }
    Ok(())
}

/// The node is up in its new incarnation.
pub fn restart(
    nodes: &mut Vec<BookNode>,
    here: NodeNo,
    left: &Reopened,
    votes: &FoundVotes,
    done: &[Tid],
) -> Result<(), NoMemory>
    ensures { OnOk result (nodes.new.items ≡ changed_at here.0 (restarted_node left.now votes.now done.now) nodes.old.items) }
{
    let place = usize::from(here.0);
    if place < nodes.len() {
        nodes[place].restart(left, votes, done)?;
    }
    Ok(())
}
