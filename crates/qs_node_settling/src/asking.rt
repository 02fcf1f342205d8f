//! Asking for votes, and what is answered to it: requests that are covered, and refusals.
ghost use Rattle.std.specs.Prelude.{◌≡◌, not, ◌&&◌, OnOk};
ghost use Rattle.qs_engage.specs.Engage.{is_node};
ghost use Rattle.qs_packet.specs.declared.message.Message.TheVariants as messages;
ghost use Rattle.qs_tm.specs.Manager as tm;
ghost use Rattle.qs_node_step.specs.State.{with_manager};
ghost use Rattle.qs_node_step.specs.Bringing.{send_each};
ghost use Rattle.qs_node_step.specs.Asking.{ask_came, count, closer_came, block, pass_unknown, refusal_came};

use qs_base::{List, NoMemory, NodeNo, Tid};
use qs_book_journal::Act;
use qs_node_servers::Servers;
use qs_node_step::Work;
use qs_node_work::{enter, send, send_each};
use qs_ops::{Cause, Server};
use qs_packet::Message;
use qs_tm::Participant;

/// The node is asked, and asks each of these peers for all that it was sent.
pub fn become_asked<F: Server, X: Server>(
    work: &mut Work<Servers<F, X>>,
    tid: Tid,
    peers: &[NodeNo],
) -> Result<(), NoMemory>
    ensures ok { OnOk result (work.new ≡ send_each peers.now (messages.AskVote tid) (with_manager (tm.ask tid) work.old)) }
    ensures saved { work.new.node.kept.saved ≡ work.old.node.kept.saved }
{
    work.node.manager.ask(tid);
    let message = Message::AskVote { tid };
    let sent = send_each(work, peers, &message);
    drop(message);
    sent
}

/// Whether an AskVote of that peer counts: from the superior alone, once.
fn is_asked_by(peer: NodeNo, part: &Participant) -> bool
    ensures { result ≡ (is_node peer part.now.engage.superior && (not part.now.engage.home && not part.now.asked)) }
{
    part.engage.superior() == Some(peer) && (!part.engage.home && !part.asked)
}

/// An AskVote comes.
pub fn ask_came<F: Server, X: Server>(
    work: &mut Work<Servers<F, X>>,
    peer: NodeNo,
    tid: Tid,
) -> Result<(), NoMemory>
    ensures ok { OnOk result (work.new ≡ ask_came peer tid work.old) }
    ensures saved { work.new.node.kept.saved ≡ work.old.node.kept.saved }
{
    let Some(part) = work.node.manager.part(tid) else {
        return Ok(());
    };
    if part.outcome.is_some() {
        return Ok(());
    }
    if !is_asked_by(peer, part) {
        return Ok(());
    }
    let peers = part.engage.uncovered().listed(work.node.manager.alloc)?;
    become_asked(work, tid, peers.as_slice())
}

fn count<F: Server, X: Server>(
    work: &mut Work<Servers<F, X>>,
    peer: NodeNo,
    tid: Tid,
    up_to: u32,
    told: &List<NodeNo>,
) -> Result<(), NoMemory>
    ensures ok { OnOk result (work.new ≡ count peer tid up_to told.now work.old) }
    ensures saved { work.new.node.kept.saved ≡ work.old.node.kept.saved }
{
    work.node.manager.counted(tid, peer, up_to, told);
    enter(work, Act::Counted { tid, peer, up_to })
}

/// The peer answers for the requests up to this number, and these nodes are to be told: a Covered comes, or
/// a VotedYes.
pub fn closer_came<F: Server, X: Server>(
    work: &mut Work<Servers<F, X>>,
    peer: NodeNo,
    tid: Tid,
    up_to: u32,
    told: &List<NodeNo>,
) -> Result<(), NoMemory>
    ensures ok { OnOk result (work.new ≡ closer_came peer tid up_to told.now work.old) }
    ensures saved { work.new.node.kept.saved ≡ work.old.node.kept.saved }
{
    let Some(part) = work.node.manager.part(tid) else {
        return Ok(());
    };
    if part.outcome.is_some() {
        return Ok(());
    }
    count(work, peer, tid, up_to, told)
}

/// It can't be committed any more, and the cause is to be sent on.
pub fn block<F: Server, X: Server>(
    work: &mut Work<Servers<F, X>>,
    tid: Tid,
    cause: Cause,
) -> Result<(), NoMemory>
    ensures ok { OnOk result (work.new ≡ block tid cause work.old) }
    ensures saved { work.new.node.kept.saved ≡ work.old.node.kept.saved }
{
    work.node.manager.refused(tid);
    work.node.manager.add_cause(tid, cause)
}

/// Of a transaction that it does not know another node than the home passes a refusal on.
fn pass_unknown<F: Server, X: Server>(
    work: &mut Work<Servers<F, X>>,
    tid: Tid,
    cause: Cause,
) -> Result<(), NoMemory>
    ensures ok { OnOk result (work.new ≡ pass_unknown tid cause work.old) }
    ensures saved { work.new.node.kept.saved ≡ work.old.node.kept.saved }
{
    if tid.home == work.node.setting.node {
        drop(cause);
        return Ok(());
    }
    send(work, tid.home, Message::VotedAbort { tid, cause })
}

/// A VotedAbort comes.
pub fn refusal_came<F: Server, X: Server>(
    work: &mut Work<Servers<F, X>>,
    tid: Tid,
    cause: Cause,
) -> Result<(), NoMemory>
    ensures ok { OnOk result (work.new ≡ refusal_came tid cause work.old) }
    ensures saved { work.new.node.kept.saved ≡ work.old.node.kept.saved }
{
    let Some(part) = work.node.manager.part(tid) else {
        return pass_unknown(work, tid, cause);
    };
    if part.outcome.is_some() {
        drop(cause);
        return Ok(());
    }
    block(work, tid, cause)
}
