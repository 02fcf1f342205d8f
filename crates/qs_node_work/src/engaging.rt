//! How requests of other nodes engage this one.
ghost use Rattle.std.specs.Prelude.{◌≡◌, OnOk};
ghost use Rattle.std.specs.Option.{option_copied};
ghost use Rattle.qs_engage.specs.Nodes.{same_node};
ghost use Rattle.qs_node_step.specs.State.{here, part_of};
ghost use Rattle.qs_node_step.specs.Serving.{put_label, learn_label, met, cover_from, engage, is_dropped, take_in, request_came};

use crate::sending::send;
use crate::waiting::enqueue;
use qs_base::{Bytes, Member, NoMemory, NodeNo, Outcome, Tid};
use qs_engage::Engaged;
use qs_ipc::Delivery;
use qs_node_kept::KeptLabel;
use qs_node_servers::Servers;
use qs_node_step::Work;
use qs_ops::{Op, Server};
use qs_packet::Message;
use qs_tm::Participant;

/// The label is the last of those that the node has met.
pub fn put_label<F: Server, X: Server>(
    work: &mut Work<Servers<F, X>>,
    begun: KeptLabel,
) -> Result<(), NoMemory>
    ensures ok { OnOk result (work.new ≡ put_label begun work.old) }
    ensures saved { work.new.node.kept.saved ≡ work.old.node.kept.saved }
{
    work.node.kept.put_label(begun)
}

/// A node learns the label of a transaction from its requests.
fn learn_label<F: Server, X: Server>(
    work: &mut Work<Servers<F, X>>,
    label: Bytes,
    tid: Tid,
) -> Result<(), NoMemory>
    ensures ok { OnOk result (work.new ≡ learn_label label tid work.old) }
    ensures saved { work.new.node.kept.saved ≡ work.old.node.kept.saved }
{
    if work.node.kept.label_at(&label).is_none() {
        put_label(
            work,
            KeptLabel {
                label,
                tid: Some(tid),
                owner: None,
            },
        )
    } else {
        drop(label);
        Ok(())
    }
}

/// Elsewhere than at the home a request makes the transaction known.
fn meet<F: Server, X: Server>(work: &mut Work<Servers<F, X>>, tid: Tid) -> Result<(), NoMemory>
    ensures ok { OnOk result (work.new ≡ met tid work.old) }
    ensures saved { work.new.node.kept.saved ≡ work.old.node.kept.saved }
{
    if tid.home != work.node.setting.node {
        work.node.manager.meet(tid)?;
    }
    Ok(())
}

/// To another than the superior `Covered` goes at once.
fn cover_from<F: Server, X: Server>(
    work: &mut Work<Servers<F, X>>,
    engaged: Engaged,
    tid: Tid,
    peer: NodeNo,
    number: u32,
) -> Result<(), NoMemory>
    ensures ok { OnOk result (work.new ≡ cover_from engaged tid peer number work.old) }
    ensures saved { work.new.node.kept.saved ≡ work.old.node.kept.saved }
{
    match engaged {
        Engaged::Superior => Ok(()),
        Engaged::Elsewhere => send(work, peer, Message::Covered { tid, up_to: number }),
    }
}

/// The home is engaged from the beginning; elsewhere the sender is, becomes or is not the superior.
fn engage<F: Server, X: Server>(
    work: &mut Work<Servers<F, X>>,
    tid: Tid,
    peer: NodeNo,
    number: u32,
) -> Result<(), NoMemory>
    ensures ok { OnOk result (work.new ≡ engage tid peer number work.old) }
    ensures saved { work.new.node.kept.saved ≡ work.old.node.kept.saved }
{
    meet(work, tid)?;
    let engaged = work.node.manager.requested(tid, peer, number);
    cover_from(work, engaged, tid, peer, number)
}

/// The node learns the label, and the request engages it.
fn learn_and_engage<F: Server, X: Server>(
    work: &mut Work<Servers<F, X>>,
    label: Bytes,
    tid: Tid,
    peer: NodeNo,
    number: u32,
) -> Result<(), NoMemory>
    ensures ok { OnOk result (work.new ≡ engage tid peer number (learn_label label tid work.old)) }
    ensures saved { work.new.node.kept.saved ≡ work.old.node.kept.saved }
{
    learn_label(work, label, tid)?;
    engage(work, tid, peer, number)
}

/// Whether a request is dropped: a home serves none of a transaction that it decided or does not know,
/// another node none of one that it knows aborted.
fn is_dropped(is_home: bool, part: Option<&Participant>) -> bool
    ensures { result ≡ is_dropped is_home (option_copied part.entry) }
{
    match part {
        None => is_home,
        Some(part) => match part.outcome {
            None => false,
            Some(Outcome::Abort) => true,
            Some(Outcome::Commit) => is_home,
        },
    }
}

/// Whether a request of the transaction is dropped here.
fn is_dropped_here<F: Server, X: Server>(work: &Work<Servers<F, X>>, tid: Tid) -> bool
    ensures { result ≡ is_dropped (same_node tid.home (here work.now)) (part_of tid work.now) }
{
    is_dropped(
        tid.home == work.node.setting.node,
        work.node.manager.part(tid),
    )
}

fn take_in<F: Server, X: Server>(
    work: &mut Work<Servers<F, X>>,
    dropped: bool,
    member: Member,
    delivery: Delivery,
) -> Result<(), NoMemory>
    ensures ok { OnOk result (work.new ≡ take_in dropped member delivery work.old) }
    ensures saved { work.new.node.kept.saved ≡ work.old.node.kept.saved }
{
    if dropped {
        drop(delivery);
        Ok(())
    } else {
        enqueue(work, member.server, delivery)
    }
}

/// A request comes from another node.
pub fn request_came<F: Server, X: Server>(
    work: &mut Work<Servers<F, X>>,
    peer: NodeNo,
    tid: Tid,
    label: Bytes,
    member: Member,
    number: u32,
    op: Op,
) -> Result<(), NoMemory>
    ensures ok { OnOk result (work.new ≡ request_came peer tid label member number op work.old) }
    ensures saved { work.new.node.kept.saved ≡ work.old.node.kept.saved }
{
    let dropped = is_dropped_here(work, tid);
    let Ok(()) = learn_and_engage(work, label, tid, peer, number) else {
        drop(op);
        return Err(NoMemory);
    };
    let delivery = Delivery {
        tid,
        from: peer,
        number,
        op,
        stale: false,
    };
    take_in(work, dropped, member, delivery)
}
