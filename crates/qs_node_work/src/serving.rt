//! How what waits is served.
ghost use Rattle.std.specs.Prelude.{◌≡◌, OnOk, IfOk, fold};
ghost use Rattle.qs_node_servers.specs.Servers.{is_client};
ghost use Rattle.qs_node_step.specs.Serving.{reply_here, lent_to, make_loan, give_reply, may_serve, serve_or_drop, serve_next, serve_all};
ghost use Rattle.qs_node_work.specs.Served.{replied, count_serve};

use crate::answering::{enter, member_here};
use crate::doings::note_served;
use crate::replies::reply_came;
use crate::sending::send;
use crate::waiting::is_for;
use qs_base::{ClientNo, Copied, Member, NoMemory, ServerNo, Tid};
use qs_book_journal::Act;
use qs_ipc::Delivery;
use qs_node_kept::Lent;
use qs_node_servers::Servers;
use qs_node_step::Work;
use qs_ops::servers::FIRST_CLIENT;
use qs_ops::{Op, Reply, Server};
use qs_packet::Message;

fn is_client(server: ServerNo) -> bool
    ensures { result ≡ is_client server }
{
    server.0 >= FIRST_CLIENT.0
}

/// The server replies, or a client that takes a loan; `None` exactly where the operation is not one of
/// its own.
fn reply_here<F: Server, X: Server>(
    work: &mut Work<Servers<F, X>>,
    server: ServerNo,
    tid: Tid,
    op: &Op,
) -> Result<Option<Reply>, NoMemory>
    ensures reply { IfOk result (λ reply. reply ≡ reply_here server tid op.now work.old.node) }
    ensures ok { IfOk result (λ reply. work.new ≡ replied server tid op.now reply work.old) }
    ensures saved { work.new.node.kept.saved ≡ work.old.node.kept.saved }
{
    if !is_for(server, op) {
        return Ok(None);
    }
    if is_client(server) {
        return Ok(Some(Reply::Done));
    }
    let reply = work.node.servers.serve(server, tid, op)?;
    Ok(Some(reply))
}

/// The request counts as served, and its entry stands.
fn count_serve<F: Server, X: Server>(
    work: &mut Work<Servers<F, X>>,
    member: Member,
    delivery: &Delivery,
    reply: &Reply,
) -> Result<(), NoMemory>
    ensures ok { OnOk result (work.new ≡ count_serve member delivery.now reply.now work.old) }
    ensures saved { work.new.node.kept.saved ≡ work.old.node.kept.saved }
{
    note_served(work, delivery.tid)?;
    work.node.manager.served(delivery.tid, member.server);
    let act = Act::Serve {
        tid: delivery.tid,
        member,
        from: delivery.from,
        number: delivery.number,
        reply: reply.copy()?,
    };
    enter(work, act)
}

/// The client that an operation lends to.
fn lent_to(op: &Op) -> Option<ClientNo>
    ensures { result ≡ lent_to op.now }
{
    match op {
        Op::Lend { client } => Some(*client),
        _ => None,
    }
}

/// A loan is made where a client was asked to take it.
fn make_loan<F: Server, X: Server>(
    work: &mut Work<Servers<F, X>>,
    tid: Tid,
    client: Option<ClientNo>,
) -> Result<(), NoMemory>
    ensures ok { OnOk result (work.new ≡ make_loan tid client work.old) }
    ensures saved { work.new.node.kept.saved ≡ work.old.node.kept.saved }
{
    match client {
        None => Ok(()),
        Some(client) => {
            work.node.kept.put_loan(Lent {
                tid,
                client,
                inc: work.node.setting.inc,
                taken: false,
                yielded: false,
            })?;
            enter(work, Act::Loan { tid, client })
        }
    }
}

/// The reply goes where the request came from; to an incarnation that is known to be dead nothing goes.
fn give_reply<F: Server, X: Server>(
    work: &mut Work<Servers<F, X>>,
    member: Member,
    delivery: &Delivery,
    reply: Reply,
) -> Result<(), NoMemory>
    ensures ok { OnOk result (work.new ≡ give_reply member delivery.now reply work.old) }
    ensures saved { work.new.node.kept.saved ≡ work.old.node.kept.saved }
{
    if delivery.from == work.node.setting.node {
        reply_came(work, delivery.tid, member, delivery.number, reply)
    } else if delivery.stale {
        drop(reply);
        Ok(())
    } else {
        send(
            work,
            delivery.from,
            Message::Answered {
                tid: delivery.tid,
                member,
                number: delivery.number,
                reply,
            },
        )
    }
}

/// Whether the outcome of the transaction is not known here, and the transaction is.
fn may_serve<F: Server, X: Server>(work: &Work<Servers<F, X>>, tid: Tid) -> bool
    ensures { result ≡ may_serve tid work.now }
{
    match work.node.manager.part(tid) {
        Some(part) => part.outcome.is_none(),
        None => false,
    }
}

/// A member serves the request; one of a transaction that is unknown here, or whose outcome is known, is
/// dropped.
fn serve_or_drop<F: Server, X: Server>(
    work: &mut Work<Servers<F, X>>,
    server: ServerNo,
    delivery: &Delivery,
) -> Result<(), NoMemory>
    ensures ok { OnOk result (work.new ≡ serve_or_drop server delivery.now work.old) }
    ensures saved { work.new.node.kept.saved ≡ work.old.node.kept.saved }
{
    if !may_serve(work, delivery.tid) {
        return Ok(());
    }
    let member = member_here(work, server);
    match reply_here(work, server, delivery.tid, &delivery.op)? {
        None => Ok(()),
        Some(reply) => {
            count_serve(work, member, delivery, &reply)?;
            make_loan(work, delivery.tid, lent_to(&delivery.op))?;
            give_reply(work, member, delivery, reply)
        }
    }
}

/// The request that waits first at the server leaves its queue, and then is served.
fn serve_next<F: Server, X: Server>(
    work: &mut Work<Servers<F, X>>,
    server: ServerNo,
) -> Result<(), NoMemory>
    ensures ok { OnOk result (work.new ≡ serve_next work.old server) }
    ensures saved { work.new.node.kept.saved ≡ work.old.node.kept.saved }
{
    match work.node.queues.next(server) {
        None => Ok(()),
        Some(delivery) => {
            let served = serve_or_drop(work, server, &delivery);
            drop(delivery);
            served
        }
    }
}

/// All that waits is served, by the servers in order.
pub fn serve_all<F: Server, X: Server>(work: &mut Work<Servers<F, X>>) -> Result<(), NoMemory>
    ensures ok { OnOk result (work.new ≡ serve_all work.old) }
    ensures saved { work.new.node.kept.saved ≡ work.old.node.kept.saved }
{
    let turns = work.node.queues.turns()?;
    serve_turns(work, turns.as_slice())
}

fn serve_turns<F: Server, X: Server>(
    work: &mut Work<Servers<F, X>>,
    turns: &[ServerNo],
) -> Result<(), NoMemory>
    ensures ok { OnOk result (work.new ≡ fold serve_next work.old turns.now) }
    ensures saved { work.new.node.kept.saved ≡ work.old.node.kept.saved }
{
    for server in turns {
        serve_next(work, *server)?;
    }
    Ok(())
}
