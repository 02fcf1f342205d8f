//! How requests are issued.
ghost use Rattle.std.specs.Prelude.{◌≡◌, OnOk, IfOk};
ghost use Rattle.qs_tm.specs.Manager as tm;
ghost use Rattle.qs_node_step.specs.State.{with_manager};
ghost use Rattle.qs_node_step.specs.Requests.{enter_issue, with_local, issue_here, label_of, is_asked, ask_on, issue_away, issue_as, issue};

use crate::answering::{enter, member_here};
use crate::numbers::next_number;
use crate::sending::send;
use crate::waiting::enqueue;
use qs_base::{Bytes, Copied, Member, NoMemory, NodeNo, ServerNo, Tid};
use qs_book_journal::Act;
use qs_ipc::Delivery;
use qs_node_servers::Servers;
use qs_node_step::Work;
use qs_ops::{Op, Server};
use qs_packet::Message;
use qs_tm::Outstanding;

/// The entry stands, and the request waits for its reply.
fn enter_issue<F: Server, X: Server>(
    work: &mut Work<Servers<F, X>>,
    tid: Tid,
    request: Outstanding,
    op: &Op,
) -> Result<(), NoMemory>
    ensures ok { OnOk result (work.new ≡ enter_issue tid request op.now work.old) }
    ensures saved { work.new.node.kept.saved ≡ work.old.node.kept.saved }
{
    let act = Act::Issue {
        tid,
        issuer: member_here(work, request.issuer),
        member: request.member,
        number: request.number,
        op: op.copy()?,
    };
    enter(work, act)?;
    work.node.manager.issued(tid, request)
}

/// The entry of a request to a server of this node stands, and its number counts.
fn enter_here<F: Server, X: Server>(
    work: &mut Work<Servers<F, X>>,
    tid: Tid,
    request: Outstanding,
    op: &Op,
) -> Result<(), NoMemory>
    ensures ok { OnOk result (work.new ≡ with_local tid request.number (enter_issue tid request op.now work.old)) }
    ensures saved { work.new.node.kept.saved ≡ work.old.node.kept.saved }
{
    enter_issue(work, tid, request, op)?;
    work.node.locals.put(tid, request.number)
}

/// To a server of this node.
fn issue_here<F: Server, X: Server>(
    work: &mut Work<Servers<F, X>>,
    tid: Tid,
    request: Outstanding,
    op: Op,
) -> Result<(), NoMemory>
    ensures ok { OnOk result (work.new ≡ issue_here tid request op work.old) }
    ensures saved { work.new.node.kept.saved ≡ work.old.node.kept.saved }
{
    let here = work.node.setting.node;
    let Ok(()) = enter_here(work, tid, request, &op) else {
        drop(op);
        return Err(NoMemory);
    };
    enqueue(
        work,
        request.member.server,
        Delivery {
            tid,
            from: here,
            number: request.number,
            op,
            stale: false,
        },
    )
}

/// The label of the transaction; none where the node has not met it.
fn label_of<F: Server, X: Server>(work: &Work<Servers<F, X>>, tid: Tid) -> Result<Bytes, NoMemory>
    ensures { IfOk result (λ label. label ≡ label_of tid work.now.node) }
{
    match work.node.kept.label_of(tid) {
        Some(begun) => begun.label.copy(),
        None => Ok(Bytes::new(work.node.manager.alloc)),
    }
}

fn is_asked<F: Server, X: Server>(work: &Work<Servers<F, X>>, tid: Tid) -> bool
    ensures { result ≡ is_asked tid work.now }
{
    match work.node.manager.part(tid) {
        Some(part) => part.asked,
        None => false,
    }
}

/// Whoever was asked asks on.
fn ask_on<F: Server, X: Server>(
    work: &mut Work<Servers<F, X>>,
    asked: bool,
    tid: Tid,
    to: NodeNo,
) -> Result<(), NoMemory>
    ensures ok { OnOk result (work.new ≡ ask_on asked tid to work.old) }
    ensures saved { work.new.node.kept.saved ≡ work.old.node.kept.saved }
{
    if asked {
        send(work, to, Message::AskVote { tid })?;
    }
    Ok(())
}

/// The entry of a request to another node stands, and its number counts; the label that goes with it.
fn enter_away<F: Server, X: Server>(
    work: &mut Work<Servers<F, X>>,
    tid: Tid,
    request: Outstanding,
    op: &Op,
) -> Result<Bytes, NoMemory>
    ensures label { IfOk result (λ label. label ≡ label_of tid work.old.node) }
    ensures ok { OnOk result (work.new ≡ with_manager (tm.sent tid request.member.node) (enter_issue tid request op.now work.old)) }
    ensures saved { work.new.node.kept.saved ≡ work.old.node.kept.saved }
{
    let label = label_of(work, tid)?;
    enter_issue(work, tid, request, op)?;
    work.node.manager.sent(tid, request.member.node);
    Ok(label)
}

/// To another node.
fn issue_away<F: Server, X: Server>(
    work: &mut Work<Servers<F, X>>,
    tid: Tid,
    request: Outstanding,
    op: Op,
) -> Result<(), NoMemory>
    ensures ok { OnOk result (work.new ≡ issue_away tid request op work.old) }
    ensures saved { work.new.node.kept.saved ≡ work.old.node.kept.saved }
{
    let to = request.member.node;
    let asked = is_asked(work, tid);
    let Ok(label) = enter_away(work, tid, request, &op) else {
        drop(op);
        return Err(NoMemory);
    };
    send(
        work,
        to,
        Message::Request {
            tid,
            label,
            member: request.member,
            number: request.number,
            issuer: request.issuer,
            op,
        },
    )?;
    ask_on(work, asked, tid, to)
}

/// The request goes to its member, under the number that it has. The number is that of `next_number`.
pub fn issue_as<F: Server, X: Server>(
    work: &mut Work<Servers<F, X>>,
    tid: Tid,
    request: Outstanding,
    op: Op,
) -> Result<(), NoMemory>
    ensures ok { OnOk result (work.new ≡ issue_as tid request op work.old) }
    ensures saved { work.new.node.kept.saved ≡ work.old.node.kept.saved }
{
    if request.member.node == work.node.setting.node {
        issue_here(work, tid, request, op)
    } else {
        issue_away(work, tid, request, op)
    }
}

/// A request goes to a member; nothing where no number is left for it. `count` is that of the changes in
/// a note of files, else 0.
pub fn issue<F: Server, X: Server>(
    work: &mut Work<Servers<F, X>>,
    tid: Tid,
    issuer: ServerNo,
    member: Member,
    op: Op,
    count: u32,
) -> Result<(), NoMemory>
    ensures ok { OnOk result (work.new ≡ issue tid issuer member op count work.old) }
    ensures saved { work.new.node.kept.saved ≡ work.old.node.kept.saved }
{
    match next_number(work, tid, member.node) {
        None => {
            drop(op);
            Ok(())
        }
        Some(number) => issue_as(
            work,
            tid,
            Outstanding {
                issuer,
                member,
                number,
                count,
            },
            op,
        ),
    }
}
