//! Inquiries: the home answers from what runs, then from the outcome kept for the owner, then from its log. What
//! is in none of them is aborted.
ghost use Rattle.std.specs.Prelude.{◌≡◌, OnOk};
ghost use Rattle.std.specs.List.{list_any};
ghost use Rattle.std.specs.Option.{option_copied};
ghost use Rattle.qs_base.specs.Order.{same_tid};
ghost use Rattle.qs_packet.specs.declared.message.Message.TheVariants as messages;
ghost use Rattle.qs_node_step.specs.Bringing.{send};
ghost use Rattle.qs_node_step.specs.Answering.{is_kept_commit, was_committed, answer_unknown, answer_known, inquiry_at_home, inquiry_came};

use crate::telling::keep_abort_told;
use qs_base::{List, NoMemory, NodeNo, Outcome, Tid};
use qs_node_kept::Decided;
use qs_node_servers::Servers;
use qs_node_step::{NodeState, Work};
use qs_node_work::send;
use qs_ops::Server;
use qs_packet::Message;

fn is_kept_commit(decided: Option<&Decided>) -> bool
    ensures { result ≡ is_kept_commit (option_copied decided.entry) }
{
    match decided {
        None => false,
        Some(decided) => match decided.outcome {
            Outcome::Commit => true,
            Outcome::Abort => false,
        },
    }
}

fn has_tid(tid: Tid, tids: &List<Tid>) -> bool
    ensures { result ≡ list_any (same_tid tid) tids.now }
{
    tids.as_slice().iter().any(|other| tid == *other)
}

/// Whether it is committed, and nothing of it runs any more.
fn was_committed<F: Server, X: Server>(node: &NodeState<Servers<F, X>>, tid: Tid) -> bool
    ensures { result ≡ was_committed tid node.now }
{
    is_kept_commit(node.kept.outcome_of(tid)) || has_tid(tid, &node.committed)
}

/// The asker is told the outcome.
fn tell<F: Server, X: Server>(
    work: &mut Work<Servers<F, X>>,
    peer: NodeNo,
    tid: Tid,
    outcome: Outcome,
) -> Result<(), NoMemory>
    ensures ok { OnOk result (work.new ≡ send peer (messages.Tell tid outcome) work.old) }
    ensures saved { work.new.node.kept.saved ≡ work.old.node.kept.saved }
{
    send(work, peer, Message::Tell { tid, outcome })
}

fn answer_unknown<F: Server, X: Server>(
    work: &mut Work<Servers<F, X>>,
    peer: NodeNo,
    tid: Tid,
) -> Result<(), NoMemory>
    ensures ok { OnOk result (work.new ≡ answer_unknown peer tid work.old) }
    ensures saved { work.new.node.kept.saved ≡ work.old.node.kept.saved }
{
    if was_committed(&work.node, tid) {
        return tell(work, peer, tid, Outcome::Commit);
    }
    keep_abort_told(work, tid, peer)?;
    tell(work, peer, tid, Outcome::Abort)
}

/// Where it runs, the asker is told at the decision.
fn answer_known<F: Server, X: Server>(
    work: &mut Work<Servers<F, X>>,
    peer: NodeNo,
    tid: Tid,
    outcome: Option<Outcome>,
) -> Result<(), NoMemory>
    ensures ok { OnOk result (work.new ≡ answer_known peer tid outcome work.old) }
    ensures saved { work.new.node.kept.saved ≡ work.old.node.kept.saved }
{
    match outcome {
        None => {
            work.node.manager.add_told(tid, peer);
            Ok(())
        }
        Some(Outcome::Commit) => tell(work, peer, tid, Outcome::Commit),
        Some(Outcome::Abort) => {
            work.node.manager.add_tell(tid, peer);
            tell(work, peer, tid, Outcome::Abort)
        }
    }
}

fn inquiry_at_home<F: Server, X: Server>(
    work: &mut Work<Servers<F, X>>,
    peer: NodeNo,
    tid: Tid,
) -> Result<(), NoMemory>
    ensures ok { OnOk result (work.new ≡ inquiry_at_home peer tid work.old) }
    ensures saved { work.new.node.kept.saved ≡ work.old.node.kept.saved }
{
    match work.node.manager.part(tid) {
        None => answer_unknown(work, peer, tid),
        Some(part) => {
            let outcome = part.outcome;
            answer_known(work, peer, tid, outcome)
        }
    }
}

/// An Inquire comes; at another node than the home it is not answered.
pub fn inquiry_came<F: Server, X: Server>(
    work: &mut Work<Servers<F, X>>,
    peer: NodeNo,
    tid: Tid,
) -> Result<(), NoMemory>
    ensures ok { OnOk result (work.new ≡ inquiry_came peer tid work.old) }
    ensures saved { work.new.node.kept.saved ≡ work.old.node.kept.saved }
{
    if tid.home == work.node.setting.node {
        inquiry_at_home(work, peer, tid)
    } else {
        Ok(())
    }
}
