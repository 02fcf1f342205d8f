//! The outcome: how it is told, taken in, acknowledged, told on, and forgotten at the home.
ghost use Rattle.std.specs.Prelude.{◌≡◌, OnOk, IfOk};
ghost use Rattle.std.specs.List.{list_any};
ghost use Rattle.qs_node_step.specs.Telling.{names_of, names_at, end_record, record_learnt, learn, learn_unknown, take_outcome, tell_came, drop_counts, forget, end_told, take_told, take_names, keep_abort_told, is_other_node, told_unknown, told_known, told_at_home, told_came};

use crate::deciding::{give_notices, tell_each};
use qs_base::{List, NoMemory, NodeNo, Outcome, Tid};
use qs_ipc::Ipc;
use qs_node_servers::Servers;
use qs_node_step::Work;
use qs_node_work::{log, log_if, send};
use qs_ops::Server;
use qs_packet::Message;
use qs_record::Record;
use qs_tm::Participant;
use std::alloc::Global;

// ---- it is told to another node than the home

/// The nodes that a Told names: on abort all whom this one drew in, the home left out.
fn names_of(
    alloc: Global,
    tid: Tid,
    outcome: Outcome,
    part: &Participant,
) -> Result<List<NodeNo>, NoMemory>
    ensures { IfOk result (λ names. names ≡ names_of tid outcome part.now) }
{
    match outcome {
        Outcome::Commit => Ok(List::new(alloc)),
        Outcome::Abort => part.named_by(tid.home).listed(alloc),
    }
}

fn names_at<F: Server, X: Server>(
    work: &Work<Servers<F, X>>,
    tid: Tid,
    outcome: Outcome,
) -> Result<List<NodeNo>, NoMemory>
    ensures { IfOk result (λ names. names ≡ names_at tid outcome work.now) }
{
    let alloc = work.node.manager.alloc;
    match work.node.manager.part(tid) {
        None => Ok(List::new(alloc)),
        Some(part) => names_of(alloc, tid, outcome, part),
    }
}

/// A commit ends a Prepare by a Commit, an abort by Aborted.
fn end_record(alloc: Global, tid: Tid, outcome: Outcome) -> Record
    ensures { result ≡ end_record tid outcome }
{
    match outcome {
        Outcome::Commit => Record::Commit {
            tid,
            told: List::new(alloc),
        },
        Outcome::Abort => Record::Aborted { tid },
    }
}

/// The record that ends a Prepare, where the log has one.
pub fn record_learnt(
    alloc: Global,
    tid: Tid,
    outcome: Outcome,
    part: &Participant,
) -> Option<Record>
    ensures { result ≡ record_learnt tid outcome part.now }
{
    if part.log.prepared {
        Some(end_record(alloc, tid, outcome))
    } else {
        None
    }
}

/// The outcome comes to a node that did not know it: its servers learn it, and this record is appended.
fn learn<F: Server, X: Server>(
    work: &mut Work<Servers<F, X>>,
    tid: Tid,
    outcome: Outcome,
    rec: Option<Record>,
) -> Result<(), NoMemory>
    ensures ok { (part : Participant) → rec ≡ record_learnt tid outcome part → OnOk result (work.new ≡ learn tid outcome part work.old) }
    ensures saved { work.new.node.kept.saved ≡ work.old.node.kept.saved }
{
    work.node.manager.took_outcome(tid, outcome);
    give_notices(work, tid, outcome)?;
    log_if(work, rec)
}

/// A node that knows nothing of the transaction keeps an abort.
fn learn_unknown<F: Server, X: Server>(
    work: &mut Work<Servers<F, X>>,
    tid: Tid,
    outcome: Outcome,
) -> Result<(), NoMemory>
    ensures ok { OnOk result (work.new ≡ learn_unknown tid outcome work.old) }
    ensures saved { work.new.node.kept.saved ≡ work.old.node.kept.saved }
{
    match outcome {
        Outcome::Commit => Ok(()),
        Outcome::Abort => work.node.manager.keep_abort(tid),
    }
}

fn take_outcome<F: Server, X: Server>(
    work: &mut Work<Servers<F, X>>,
    tid: Tid,
    outcome: Outcome,
) -> Result<(), NoMemory>
    ensures ok { OnOk result (work.new ≡ take_outcome tid outcome work.old) }
    ensures saved { work.new.node.kept.saved ≡ work.old.node.kept.saved }
{
    let Some(part) = work.node.manager.part(tid) else {
        return learn_unknown(work, tid, outcome);
    };
    if part.outcome.is_some() {
        return Ok(());
    }
    let rec = record_learnt(work.node.manager.alloc, tid, outcome, part);
    learn(work, tid, outcome, rec)
}

/// A Tell comes, and Told is answered.
pub fn tell_came<F: Server, X: Server>(
    work: &mut Work<Servers<F, X>>,
    peer: NodeNo,
    tid: Tid,
    outcome: Outcome,
) -> Result<(), NoMemory>
    ensures ok { OnOk result (work.new ≡ tell_came peer tid outcome work.old) }
    ensures saved { work.new.node.kept.saved ≡ work.old.node.kept.saved }
{
    if tid.home == work.node.setting.node {
        return Ok(());
    }
    let further = names_at(work, tid, outcome)?;
    take_outcome(work, tid, outcome)?;
    send(work, peer, Message::Told { tid, further })
}

// ---- it was taken in: a Told comes to the home

/// What was served of the transaction counts no more; nothing changes while a request of it waits.
fn drop_counts(queues: &mut Ipc, tid: Tid)
    ensures { queues.new ≡ drop_counts tid queues.old }
{
    if !queues.waits(tid) {
        queues.forget(tid);
    }
}

/// It is unknown from now on.
pub fn forget<F: Server, X: Server>(work: &mut Work<Servers<F, X>>, tid: Tid)
    ensures ok { work.new ≡ forget tid work.old }
    ensures saved { work.new.node.kept.saved ≡ work.old.node.kept.saved }
{
    work.node.manager.forget(tid);
    drop_counts(&mut work.node.queues, tid);
}

/// The home is done with it, once all that were to be told a commit took it in.
fn end_told<F: Server, X: Server>(
    work: &mut Work<Servers<F, X>>,
    all: bool,
    tid: Tid,
) -> Result<(), NoMemory>
    ensures ok { OnOk result (work.new ≡ end_told all tid work.old) }
    ensures saved { work.new.node.kept.saved ≡ work.old.node.kept.saved }
{
    if !all {
        return Ok(());
    }
    log(work, Record::End { tid })?;
    forget(work, tid);
    Ok(())
}

fn take_told<F: Server, X: Server>(
    work: &mut Work<Servers<F, X>>,
    peer: NodeNo,
    tid: Tid,
) -> Result<(), NoMemory>
    ensures ok { OnOk result (work.new ≡ take_told peer tid work.old) }
    ensures saved { work.new.node.kept.saved ≡ work.old.node.kept.saved }
{
    let all = work.node.manager.acknowledged(tid, peer);
    end_told(work, all, tid)
}

/// Those that a Told on abort names and that were not told are told too.
fn take_names<F: Server, X: Server>(
    work: &mut Work<Servers<F, X>>,
    tid: Tid,
    further: &List<NodeNo>,
) -> Result<(), NoMemory>
    ensures ok { OnOk result (work.new ≡ take_names tid further.now work.old) }
    ensures saved { work.new.node.kept.saved ≡ work.old.node.kept.saved }
{
    let alloc = work.node.manager.alloc;
    let names = work.node.manager.take_names(tid, further).listed(alloc)?;
    tell_each(work, names.as_slice(), tid, Outcome::Abort)
}

/// A home that knows nothing of a transaction keeps that it is aborted, and that this node was told.
pub fn keep_abort_told<F: Server, X: Server>(
    work: &mut Work<Servers<F, X>>,
    tid: Tid,
    peer: NodeNo,
) -> Result<(), NoMemory>
    ensures ok { OnOk result (work.new ≡ keep_abort_told tid peer work.old) }
    ensures saved { work.new.node.kept.saved ≡ work.old.node.kept.saved }
{
    work.node.manager.keep_abort(tid)?;
    work.node.manager.add_tell(tid, peer);
    Ok(())
}

fn is_other_node(tid: Tid, node: NodeNo) -> bool
    ensures { result ≡ is_other_node tid node }
{
    tid.home != node
}

fn names_another(tid: Tid, further: &List<NodeNo>) -> bool
    ensures { result ≡ list_any (is_other_node tid) further.now }
{
    further
        .as_slice()
        .iter()
        .any(|node| is_other_node(tid, *node))
}

fn told_unknown<F: Server, X: Server>(
    work: &mut Work<Servers<F, X>>,
    peer: NodeNo,
    tid: Tid,
    further: &List<NodeNo>,
) -> Result<(), NoMemory>
    ensures ok { OnOk result (work.new ≡ told_unknown peer tid further.now work.old) }
    ensures saved { work.new.node.kept.saved ≡ work.old.node.kept.saved }
{
    if !names_another(tid, further) {
        return Ok(());
    }
    keep_abort_told(work, tid, peer)?;
    take_names(work, tid, further)
}

fn told_known<F: Server, X: Server>(
    work: &mut Work<Servers<F, X>>,
    peer: NodeNo,
    tid: Tid,
    further: &List<NodeNo>,
    outcome: Option<Outcome>,
) -> Result<(), NoMemory>
    ensures ok { OnOk result (work.new ≡ told_known peer tid further.now outcome work.old) }
    ensures saved { work.new.node.kept.saved ≡ work.old.node.kept.saved }
{
    match outcome {
        None => Ok(()),
        Some(Outcome::Commit) => take_told(work, peer, tid),
        Some(Outcome::Abort) => take_names(work, tid, further),
    }
}

fn told_at_home<F: Server, X: Server>(
    work: &mut Work<Servers<F, X>>,
    peer: NodeNo,
    tid: Tid,
    further: &List<NodeNo>,
) -> Result<(), NoMemory>
    ensures ok { OnOk result (work.new ≡ told_at_home peer tid further.now work.old) }
    ensures saved { work.new.node.kept.saved ≡ work.old.node.kept.saved }
{
    match work.node.manager.part(tid) {
        None => told_unknown(work, peer, tid, further),
        Some(part) => {
            let outcome = part.outcome;
            told_known(work, peer, tid, further, outcome)
        }
    }
}

/// A Told comes; at another node than the home it says nothing.
pub fn told_came<F: Server, X: Server>(
    work: &mut Work<Servers<F, X>>,
    peer: NodeNo,
    tid: Tid,
    further: &List<NodeNo>,
) -> Result<(), NoMemory>
    ensures ok { OnOk result (work.new ≡ told_came peer tid further.now work.old) }
    ensures saved { work.new.node.kept.saved ≡ work.old.node.kept.saved }
{
    if tid.home == work.node.setting.node {
        told_at_home(work, peer, tid, further)
    } else {
        Ok(())
    }
}
