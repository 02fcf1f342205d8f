//! The log decides what began here and was not decided as the node stopped.
ghost use Rattle.std.specs.Prelude.{◌≡◌, map, IfOk, OnOk};
ghost use Rattle.std.specs.List.{list_any};
ghost use Rattle.qs_base.specs.Order.{same_tid};
ghost use Rattle.qs_node_kept.specs.Keeping.{with_now};
ghost use Rattle.qs_node.specs.Closed.{closed_by};
ghost use Rattle.qs_node_step.specs.Opening.{outcome_in_log, is_left_open, close_tid, closed_kept};

use qs_base::{List, NoMemory, NodeNo, Outcome, Tid};
use qs_node_kept::{Decided, Keeping, KeptLabel};
use qs_node_step::Setting;
use qs_ops::Cause;
use qs_restart::Recovered;
use std::alloc::Global;

/// The transactions of these labels, in order; `None` where a begin was refused.
fn tids_begun(alloc: Global, labels: &[KeptLabel]) -> Result<List<Option<Tid>>, NoMemory>
    ensures { IfOk result (λ tids. tids ≡ map (λ (begun : KeptLabel). begun.tid) labels.now) }
{
    let mut tids = List::new(alloc);
    for begun in labels {
        tids.push(begun.tid)?;
    }
    Ok(tids)
}

fn is_committed(committed: &List<Tid>, tid: Tid) -> bool
    ensures { result ≡ list_any (same_tid tid) committed.now }
{
    committed.as_slice().iter().any(|other| tid == *other)
}

/// The log has a Commit of it, or it is aborted.
fn outcome_in_log(committed: &List<Tid>, tid: Tid) -> Decided
    ensures { result ≡ outcome_in_log committed.now tid }
{
    if is_committed(committed, tid) {
        Decided {
            tid,
            outcome: Outcome::Commit,
            cause: None,
        }
    } else {
        Decided {
            tid,
            outcome: Outcome::Abort,
            cause: Some(Cause::Home { inc: tid.inc }),
        }
    }
}

/// Whether it began here, and its outcome is not kept.
fn is_left_open(node: NodeNo, kept: &Keeping, tid: Tid) -> bool
    ensures { result ≡ is_left_open node kept.now.now.outcomes tid }
{
    tid.home == node && kept.outcome_of(tid).is_none()
}

fn close_tid(
    kept: &mut Keeping,
    node: NodeNo,
    committed: &List<Tid>,
    tid: Option<Tid>,
) -> Result<(), NoMemory>
    ensures ok { OnOk result (kept.new ≡ with_now (λ kept. record kept { outcomes = close_tid node committed.now kept.outcomes tid }) kept.old) }
    ensures saved { kept.new.saved ≡ kept.old.saved }
{
    let Some(tid) = tid else {
        return Ok(());
    };
    if !is_left_open(node, kept, tid) {
        return Ok(());
    }
    kept.put_outcome(outcome_in_log(committed, tid))
}

fn close_each(
    kept: &mut Keeping,
    node: NodeNo,
    committed: &List<Tid>,
    tids: &[Option<Tid>],
) -> Result<(), NoMemory>
    ensures ok { OnOk result (kept.new ≡ with_now (closed_by node committed.now tids.now) kept.old) }
    ensures saved { kept.new.saved ≡ kept.old.saved }
{
    for tid in tids {
        close_tid(kept, node, committed, *tid)?;
    }
    Ok(())
}

/// The log decides what began here and was not decided as the node stopped. The only error is a refusal of
/// memory; what was accepted stands after it too.
#[tactic(auto, using(crate::proofs::ClosedOutcomes::closed))]
pub fn close_kept(
    kept: &mut Keeping,
    alloc: Global,
    setting: &Setting,
    found: &Recovered,
) -> Result<(), NoMemory>
    ensures ok { OnOk result (kept.new ≡ with_now (closed_kept setting.now.node found.now) kept.old) }
    ensures saved { kept.new.saved ≡ kept.old.saved }
{
    let tids = tids_begun(alloc, kept.labels())?;
    close_each(kept, setting.node, &found.committed, tids.as_slice())
}
