//! What a node does when another one restarted.
ghost use Rattle.std.specs.Prelude.{◌≡◌, not, ◌&&◌, fold, OnOk, if◌then◌else◌};
ghost use Rattle.qs_ops.specs.declared.answer.Cause.TheVariants as causes;
ghost use Rattle.qs_packet.specs.declared.message.Message.TheVariants as messages;
ghost use Rattle.qs_tm.specs.Outcomes.{is_abort};
ghost use Rattle.qs_engage.specs.Nodes.{same_node};
ghost use Rattle.qs_node_step.specs.Bringing.{send};
ghost use Rattle.qs_node_step.specs.Asking.{block};
ghost use Rattle.qs_node_step.specs.Restarts.{awaits_word, is_orphaned_by, notice_tid, peer_restarted};

use qs_base::{List, NoMemory, NodeNo, Outcome, Tid};
use qs_node_servers::Servers;
use qs_node_settling::block;
use qs_node_step::Work;
use qs_node_work::send;
use qs_ops::{Cause, Server};
use qs_packet::Message;
use qs_tm::Participant;

/// Whether this node is to be told of the transaction, or answers to a node.
fn awaits_word(part: &Participant) -> bool
    ensures { result ≡ awaits_word part.now }
{
    part.involved || part.engage.superior().is_some()
}

/// Whether this node waits for a word, and the home restarted after the transaction began, or the node that this one answers
/// to, or answered to last, did.
fn is_orphaned_by(peer: NodeNo, new: u64, tid: Tid, part: &Participant) -> bool
    ensures { result ≡ is_orphaned_by peer new tid part.now }
{
    awaits_word(part) && ((tid.home == peer && tid.inc < new) || part.answered_to(peer))
}

fn inquires(peer: NodeNo, new: u64, tid: Tid, part: &Participant) -> bool
    ensures { result ≡ (not part.now.engage.home && is_orphaned_by peer new tid part.now) }
{
    !part.engage.home && is_orphaned_by(peer, new, tid, part)
}

fn is_abort(outcome: Outcome) -> bool
    ensures { result ≡ is_abort (Some outcome) }
{
    outcome == Outcome::Abort
}

/// Where the peer owes something that will never come, the transaction can't be committed.
fn find_gone<F: Server, X: Server>(
    work: &mut Work<Servers<F, X>>,
    peer: NodeNo,
    old: u64,
    tid: Tid,
    owes: bool,
) -> Result<(), NoMemory>
    ensures ok { OnOk result (work.new ≡ (if owes then block tid (causes.Gone peer old) work.old else work.old)) }
    ensures saved { work.new.node.kept.saved ≡ work.old.node.kept.saved }
{
    if owes {
        block(
            work,
            tid,
            Cause::Gone {
                node: peer,
                inc: old,
            },
        )
    } else {
        Ok(())
    }
}

/// A message goes to a node, where it is due.
fn send_if<F: Server, X: Server>(
    work: &mut Work<Servers<F, X>>,
    is_due: bool,
    to: NodeNo,
    message: Message,
) -> Result<(), NoMemory>
    ensures ok { OnOk result (work.new ≡ (if is_due then send to message work.old else work.old)) }
    ensures saved { work.new.node.kept.saved ≡ work.old.node.kept.saved }
{
    if is_due {
        send(work, to, message)
    } else {
        drop(message);
        Ok(())
    }
}

/// A transaction that has to do with the peer is looked at; the number of its last request begins anew.
fn notice_tid<F: Server, X: Server>(
    work: &mut Work<Servers<F, X>>,
    peer: NodeNo,
    old: u64,
    new: u64,
    tid: Tid,
) -> Result<(), NoMemory>
    ensures ok { OnOk result (work.new ≡ notice_tid peer old new work.old tid) }
    ensures saved { work.new.node.kept.saved ≡ work.old.node.kept.saved }
{
    let Some(part) = work.node.manager.part(tid) else {
        return Ok(());
    };
    let Some(outcome) = part.outcome else {
        let owes = part.is_owed_by(peer);
        let is_due = inquires(peer, new, tid, part);
        work.node.manager.restarted(tid, peer);
        find_gone(work, peer, old, tid, owes)?;
        return send_if(work, is_due, tid.home, Message::Inquire { tid });
    };
    if part.engage.home {
        let is_due = part.is_told_again(peer);
        work.node.manager.restarted(tid, peer);
        return send_if(work, is_due, peer, Message::Tell { tid, outcome });
    }
    let is_due = is_abort(outcome) && tid.home == peer;
    let further = part.named_by(tid.home).listed(work.node.manager.alloc)?;
    work.node.manager.restarted(tid, peer);
    send_if(work, is_due, peer, Message::Told { tid, further })
}

fn notice_each<F: Server, X: Server>(
    work: &mut Work<Servers<F, X>>,
    peer: NodeNo,
    old: u64,
    new: u64,
    tids: &[Tid],
) -> Result<(), NoMemory>
    ensures ok { OnOk result (work.new ≡ fold (notice_tid peer old new) work.old tids.now) }
    ensures saved { work.new.node.kept.saved ≡ work.old.node.kept.saved }
{
    for tid in tids {
        notice_tid(work, peer, old, new, *tid)?;
    }
    Ok(())
}

/// Another node, known in incarnation `old`, was found to be in incarnation `new`: what waits here for its dead
/// incarnation is served, and its reply goes nowhere; and each transaction that has to do with it is looked at.
pub fn peer_restarted<F: Server, X: Server>(
    work: &mut Work<Servers<F, X>>,
    peer: NodeNo,
    old: u64,
    new: u64,
) -> Result<(), NoMemory>
    ensures ok { OnOk result (work.new ≡ peer_restarted peer old new work.old) }
    ensures saved { work.new.node.kept.saved ≡ work.old.node.kept.saved }
{
    work.node.queues.mark_stale(peer);
    let tids = work.node.manager.concerned(peer)?;
    notice_each(work, peer, old, new, tids.as_slice())
}
