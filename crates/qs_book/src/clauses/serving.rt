//! Serve.
ghost use Rattle.std.specs.Prelude.{◌≡◌, IfOk};
ghost use Rattle.std.specs.Option.{option_copied};
ghost use Rattle.qs_book_machine.specs.Clauses.{broken_serve, broken_request, request_here, has_reply, holds_as, may_hold, takes_lock, is_crossed_busy, is_table_reply, is_server_reply, is_reply};

use crate::book::find;
use crate::clauses::{NO_SERVE_AFTER_ABORT, REPLY_BY_THE_RULES, SERVE_OF_A_STANDING_ISSUE};
use crate::node::BookNode;
use qs_base::{Member, NoMemory, NodeNo, ServerNo, Tid};
use qs_book_machine::{Link, Request, RequestNo};
use qs_book_tables::Table;
use qs_book_transactions::Transaction;
use qs_ops::servers::{AUDIT, EXTRA, FILES, FIRST_CLIENT, NAMES, SCRATCH, TIMERS, WINDOWS};
use qs_ops::{Op, Reply};
use std::collections::BTreeMap;

/// Which member serves which request, with what reply.
#[derive(Clone, Copy)]
pub struct Serve<'a> {
    pub member: Member,
    pub from: NodeNo,
    pub number: u32,
    pub reply: &'a Reply,
}

/// The first clause that a serve at `here` breaks.
pub fn broken_serve(
    here: NodeNo,
    node: &BookNode,
    transactions: &BTreeMap<Tid, Transaction>,
    tid: Tid,
    tx: Option<&Transaction>,
    serve: &Serve<'_>,
) -> Result<Option<u16>, NoMemory>
    ensures { IfOk result (λ clause. clause ≡ broken_serve here.0 node.now transactions.now.entries tid (option_copied tx.entry) serve.now.member serve.now.from.0 serve.now.number serve.now.reply.now) }
{
    let Some(tx) = tx else {
        return Ok(Some(SERVE_OF_A_STANDING_ISSUE));
    };
    let Some(request) = request_here(here, tx, serve) else {
        return Ok(Some(SERVE_OF_A_STANDING_ISSUE));
    };
    if !is_reply(
        here,
        node,
        transactions,
        tid,
        tx,
        serve.member,
        &request.op,
        serve.reply,
    )? {
        return Ok(Some(REPLY_BY_THE_RULES));
    }
    if tx.learnt_abort(serve.member.node, node.inc()) {
        return Ok(Some(NO_SERVE_AFTER_ABORT));
    }
    Ok(None)
}

fn request_here<'a>(here: NodeNo, tx: &'a Transaction, serve: &Serve<'_>) -> Option<&'a Request>
    ensures { option_copied result ≡ request_here here.0 tx.now serve.now.member serve.now.from.0 serve.now.number }
{
    if serve.member.node != here {
        return None;
    }
    let link = Link {
        from: serve.from,
        to: serve.member.node,
    };
    let at = RequestNo {
        link,
        number: serve.number,
    };
    tx.standing_request(at, serve.member)
}

/// Whether it is a reply that a server may give to some operation of its own.
fn has_reply(server: ServerNo, reply: &Reply) -> bool
    ensures { result ≡ has_reply server.0 reply.now }
{
    match reply {
        Reply::Done => server != EXTRA,
        Reply::Value { .. } => {
            server == FILES || server == NAMES || server == WINDOWS || server == SCRATCH
        }
        Reply::Left { .. } => server == TIMERS,
        Reply::Names { .. } | Reply::Busy { .. } | Reply::TooLong => server == FILES,
        Reply::Notes { .. } => server == AUDIT,
        Reply::Absent => server != AUDIT && server < FIRST_CLIENT,
        Reply::TooMany => server < EXTRA,
    }
}

/// A transaction that is crossed at files here may hold any name.
fn may_hold(
    here: NodeNo,
    node: &BookNode,
    transactions: &BTreeMap<Tid, Transaction>,
    holder: Tid,
) -> bool
    ensures { result ≡ may_hold here.0 node.now transactions.now.entries holder }
{
    let files = Member {
        node: here,
        server: FILES,
    };
    holds_as(find(transactions, holder), files, node.inc())
}

fn holds_as(tx: Option<&Transaction>, files: Member, inc: u64) -> bool
    ensures { result ≡ holds_as (option_copied tx.entry) files inc }
{
    match tx {
        Some(tx) => tx.is_crossed(files) && tx.part(files, inc).due,
        None => false,
    }
}

/// Whether another transaction can keep the operation back.
fn takes_lock(op: &Op) -> bool
    ensures { result ≡ takes_lock op.now }
{
    match op {
        Op::Put { .. } | Op::Append { .. } | Op::Del { .. } | Op::Get { .. } => true,
        _ => false,
    }
}

/// Whether the reply says that a crossed transaction is in the way.
fn is_crossed_busy(
    here: NodeNo,
    node: &BookNode,
    transactions: &BTreeMap<Tid, Transaction>,
    tid: Tid,
    op: &Op,
    reply: &Reply,
) -> bool
    ensures { result ≡ is_crossed_busy here.0 node.now transactions.now.entries tid op.now reply.now }
{
    match reply {
        Reply::Busy { holder } => {
            takes_lock(op)
                && node.files().operations(tid) < 1024
                && *holder != tid
                && may_hold(here, node, transactions, *holder)
        }
        _ => false,
    }
}

/// Whether that is the reply of a server's table.
fn is_table_reply(table: Option<&Table>, tid: Tid, op: &Op, reply: &Reply) -> Result<bool, NoMemory>
    ensures { IfOk result (λ yes. yes ≡ is_table_reply (option_copied table.entry) tid op.now reply.now) }
{
    match table {
        Some(table) => table.is_reply(tid, op, reply),
        None => Ok(false),
    }
}

/// Whether that is the reply of a server to a transaction that isn't crossed there.
fn is_server_reply(
    node: &BookNode,
    server: ServerNo,
    tid: Tid,
    op: &Op,
    reply: &Reply,
) -> Result<bool, NoMemory>
    ensures { IfOk result (λ yes. yes ≡ is_server_reply node.now server.0 tid op.now reply.now) }
{
    match server {
        TIMERS => Ok(node.timers().is_reply(tid, op, reply)),
        EXTRA => Ok(Reply::Absent.is(reply)),
        client if client >= FIRST_CLIENT => Ok(Reply::Done.is(reply)),
        _ => is_table_reply(node.table(server), tid, op, reply),
    }
}

/// Whether that is a reply of the member by the rules; where the transaction is crossed, any that
/// the server has.
fn is_reply(
    here: NodeNo,
    node: &BookNode,
    transactions: &BTreeMap<Tid, Transaction>,
    tid: Tid,
    tx: &Transaction,
    member: Member,
    op: &Op,
    reply: &Reply,
) -> Result<bool, NoMemory>
    ensures { IfOk result (λ yes. yes ≡ is_reply here.0 node.now transactions.now.entries tid tx.now member op.now reply.now) }
{
    if tx.is_crossed(member) {
        return Ok(has_reply(member.server, reply));
    }
    if is_server_reply(node, member.server, tid, op, reply)? {
        return Ok(true);
    }
    Ok(member.server == FILES && is_crossed_busy(here, node, transactions, tid, op, reply))
}
