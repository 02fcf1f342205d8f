//! Which rule is the first that does something for a transaction, when a step has ended.
ghost use Rattle.std.specs.Prelude.{◌≡◌};
ghost use Rattle.qs_node_step.specs.Settling.{is_busy};
ghost use Rattle.qs_node_settling.specs.Firsts.{waits_while_busy, first_of_rest, first_of_ready, first_of_asked, first_of_free, first_of, IsFirst};

use qs_base::Tid;
use qs_node_servers::Servers;
use qs_node_step::{Doings, NodeState, Work};
use qs_node_work::doings_of;
use qs_ops::Server;
use qs_tm::Participant;

// ---- which rule is the first

/// The first rule that does something for a transaction.
#[derive(Clone, Copy)]
pub enum First {
    /// The servers vote.
    Pass,
    /// The home decides for the commit.
    Commit,
    /// The superior is answered.
    Answer,
    /// Causes are sent on, or the first of them decides, or the node forgets.
    Refusal,
    Nothing,
}

// ---- what they wait for

/// Whether a request waits, a loan of this incarnation is not given back, or files wait for a reply.
fn is_busy<F: Server, X: Server>(
    node: &NodeState<Servers<F, X>>,
    tid: Tid,
    part: &Participant,
) -> bool
    ensures { result ≡ is_busy tid node.now part.now }
{
    node.queues.waits(tid) || (node.kept.has_standing(tid, node.setting.inc) || part.awaits_note())
}

/// A pass and readiness wait while the node is busy.
fn waits_while_busy(first: First) -> bool
    ensures { result ≡ waits_while_busy first }
{
    match first {
        First::Pass | First::Commit | First::Answer => true,
        First::Refusal | First::Nothing => false,
    }
}

// ---- the first

/// Where neither a pass nor readiness is due. At the home without a cause nothing is.
fn first_of_rest(part: &Participant) -> First
    ensures { result ≡ first_of_rest part.now }
{
    if part.engage.home && part.causes.is_empty() {
        First::Nothing
    } else {
        First::Refusal
    }
}

/// Where all that came can be answered for.
fn first_of_ready(part: &Participant, doings: Doings) -> First
    ensures { result ≡ first_of_ready part.now doings }
{
    if !part.engage.home {
        First::Answer
    } else if doings.is_quiet() {
        First::Commit
    } else {
        first_of_rest(part)
    }
}

/// At an asked node that is not busy. A pass that was put off comes before an answer, and a vote of this step's Prepare
/// does not count yet.
fn first_of_asked(part: &Participant, doings: Doings) -> First
    ensures { result ≡ first_of_asked part.now doings }
{
    if part.needs_pass() {
        return if doings.is_put_off() {
            first_of_rest(part)
        } else {
            First::Pass
        };
    }
    if part.is_ready(false) && !doings.prepared {
        first_of_ready(part, doings)
    } else {
        first_of_rest(part)
    }
}

/// At a node that is not busy.
fn first_of_free(part: &Participant, doings: Doings) -> First
    ensures { result ≡ first_of_free part.now doings }
{
    if part.asked {
        first_of_asked(part, doings)
    } else {
        first_of_rest(part)
    }
}

/// Where the outcome is not known. Whether the node is busy takes longest to tell, and is asked only where it counts.
fn first_of<F: Server, X: Server>(work: &Work<Servers<F, X>>, tid: Tid, part: &Participant) -> First
    ensures { result ≡ first_of tid part.now work.now }
{
    let first = first_of_free(part, doings_of(work, tid));
    if waits_while_busy(first) && is_busy(&work.node, tid, part) {
        first_of_rest(part)
    } else {
        first
    }
}

/// The rules before it change nothing.
#[tactic(auto, using(crate::proofs::FirstLemmas::first_is))]
pub fn first_due<F: Server, X: Server>(work: &Work<Servers<F, X>>, tid: Tid) -> First
    ensures { IsFirst tid work.now result }
{
    let Some(part) = work.node.manager.part(tid) else {
        return First::Nothing;
    };
    if part.outcome.is_some() {
        return First::Nothing;
    }
    first_of(work, tid, part)
}
