//! Begin and issue.
ghost use Rattle.std.specs.Prelude.{◌≡◌, ◌==◌, IfOk, length};
ghost use Rattle.std.specs.Option.{option_copied};
ghost use Rattle.qs_book_machine.specs.Clauses.{broken_begin, is_next_tid, broken_issue, broken_issuer, is_numbered, is_for, is_client_here, is_files_here, is_owner_of, may_issue, may_issue_as_owner, may_issue_as_borrower, note_text, is_note, is_note_due, note_here, files_count, link_to};

use crate::clauses::{
    AUDIT_NOTE_DUE, CLIENT_MAY_ISSUE, FRESH_LABEL, ISSUE_NUMBERING, NEXT_IDENTIFIER,
};
use crate::node::BookNode;
use qs_base::{Bytes, ClientNo, Member, NoMemory, NodeNo, ServerNo, Tid};
use qs_book_machine::{Cell, Link, Noted};
use qs_book_transactions::Transaction;
use qs_ops::servers::{FILES, FIRST_CLIENT};
use qs_ops::{Op, server_of};
use std::alloc::Global;
use std::collections::BTreeMap;

/// The first clause that a begin at `here` breaks.
pub fn broken_begin(
    here: NodeNo,
    node: &BookNode,
    labels: &BTreeMap<Bytes, Tid>,
    tid: Tid,
    label: &Bytes,
) -> Option<u16>
    ensures { result ≡ broken_begin here.0 node.now labels.now.entries tid label.now }
{
    if !is_next_tid(here, node, tid) {
        return Some(NEXT_IDENTIFIER);
    }
    if labels.contains_key(label) {
        return Some(FRESH_LABEL);
    }
    None
}

fn is_next_tid(here: NodeNo, node: &BookNode, tid: Tid) -> bool
    ensures { result ≡ is_next_tid here.0 node.now tid }
{
    tid.home == here && tid.inc == node.inc() && u64::from(tid.seq) == u64::from(node.begun()) + 1
}

/// Who asks whom, with which number, for what.
#[derive(Clone, Copy)]
pub struct Issue<'a> {
    pub issuer: Member,
    pub member: Member,
    pub number: u32,
    pub op: &'a Op,
}

/// The first clause that an issue at `here` breaks, in a run of so many nodes.
pub fn broken_issue(
    alloc: Global,
    here: NodeNo,
    node: &BookNode,
    nodes: usize,
    tid: Tid,
    tx: Option<&Transaction>,
    issue: &Issue<'_>,
) -> Result<Option<u16>, NoMemory>
    ensures { IfOk result (λ clause. clause ≡ broken_issue here.0 node.now nodes tid (option_copied tx.entry) issue.now.issuer issue.now.member issue.now.number issue.now.op.now) }
{
    match tx {
        Some(tx) if is_numbered(here, node, nodes, tx, issue) => {
            broken_issuer(alloc, here, node, tid, tx, issue.issuer, issue.op)
        }
        _ => Ok(Some(ISSUE_NUMBERING)),
    }
}

fn is_numbered(
    here: NodeNo,
    node: &BookNode,
    nodes: usize,
    tx: &Transaction,
    issue: &Issue<'_>,
) -> bool
    ensures { result ≡ is_numbered here.0 node.now nodes tx.now issue.now.member issue.now.number issue.now.op.now }
{
    let link = Link {
        from: here,
        to: issue.member.node,
    };
    tx.cell() != Cell::Commit
        && u64::from(issue.number) == tx.next_number(link, node.inc())
        && is_for(issue.op, issue.member)
        && usize::from(issue.member.node.0) < nodes
}

fn is_for(op: &Op, member: Member) -> bool
    ensures { result ≡ is_for op.now member }
{
    match server_of(op) {
        Some(server) => server == member.server,
        None => false,
    }
}

fn broken_issuer(
    alloc: Global,
    here: NodeNo,
    node: &BookNode,
    tid: Tid,
    tx: &Transaction,
    issuer: Member,
    op: &Op,
) -> Result<Option<u16>, NoMemory>
    ensures { IfOk result (λ clause. clause ≡ broken_issuer here.0 node.now tid tx.now issuer op.now) }
{
    if is_files_here(here, issuer) {
        if is_note_due(alloc, here, node, tid, tx, op)? {
            return Ok(None);
        }
        return Ok(Some(AUDIT_NOTE_DUE));
    }
    if may_issue(here, node, tid, tx, issuer) {
        return Ok(None);
    }
    Ok(Some(CLIENT_MAY_ISSUE))
}

fn is_client_here(here: NodeNo, issuer: Member) -> bool
    ensures { result ≡ is_client_here here.0 issuer }
{
    issuer.node == here && issuer.server >= FIRST_CLIENT
}

fn is_files_here(here: NodeNo, issuer: Member) -> bool
    ensures { result ≡ is_files_here here.0 issuer }
{
    issuer.node == here && issuer.server == FILES
}

fn is_owner_of(server: ServerNo, owner: Option<ClientNo>) -> bool
    ensures { result ≡ is_owner_of server.0 owner }
{
    match owner {
        Some(owner) => u32::from(owner.0) + u32::from(FIRST_CLIENT.0) == u32::from(server.0),
        None => false,
    }
}

fn may_issue(here: NodeNo, node: &BookNode, tid: Tid, tx: &Transaction, issuer: Member) -> bool
    ensures { result ≡ may_issue here.0 node.now tid tx.now issuer }
{
    is_client_here(here, issuer)
        && (may_issue_as_owner(here, tid, tx, issuer) || may_issue_as_borrower(node, tx, issuer))
}

fn may_issue_as_owner(here: NodeNo, tid: Tid, tx: &Transaction, issuer: Member) -> bool
    ensures { result ≡ may_issue_as_owner here.0 tid tx.now issuer }
{
    is_owner_of(issuer.server, tx.owner())
        && tid.home == here
        && tx.cell() == Cell::Open
        && !tx.is_asked()
}

fn may_issue_as_borrower(node: &BookNode, tx: &Transaction, issuer: Member) -> bool
    ensures { result ≡ may_issue_as_borrower node.now tx.now issuer }
{
    tx.has_loan(issuer, node.inc()) && !tx.learnt_abort(issuer.node, node.inc())
}

/// The note that files issues: how many changes of the transaction it holds at its node.
fn note_text(alloc: Global, tid: Tid, here: NodeNo, count: u64) -> Result<Bytes, NoMemory>
    ensures { IfOk result (λ text. text ≡ note_text tid here.0 count) }
{
    let (home, inc, seq) = (tid.home.0, tid.inc, tid.seq);
    let text = format!(in alloc; "{home}.{inc}.{seq}:files@{}:{count}", here.0)?;
    Bytes::from_slice(alloc, text.as_bytes())
}

fn is_note(text: &Bytes, op: &Op) -> bool
    ensures { result ≡ is_note text.now op.now }
{
    match op {
        Op::Note { text: said } => said.as_slice() == text.as_slice(),
        _ => false,
    }
}

fn files_count(here: NodeNo, node: &BookNode, tx: &Transaction) -> u64
    ensures { result ≡ files_count here.0 node.now tx.now }
{
    let files = Member {
        node: here,
        server: FILES,
    };
    tx.part(files, node.inc()).pending
}

/// The note that tells how many changes of the transaction files at its node hold now. The only
/// error is a refusal of memory.
pub fn files_note(
    alloc: Global,
    here: NodeNo,
    node: &BookNode,
    tid: Tid,
    tx: &Transaction,
) -> Result<Noted, NoMemory>
    ensures { IfOk result (λ note. note ≡ note_here here.0 node.now (note_text tid here.0 (files_count here.0 node.now tx.now))) }
{
    let text = note_text(alloc, tid, here, files_count(here, node, tx))?;
    Ok(Noted {
        node: here,
        inc: node.inc(),
        text,
    })
}

fn is_note_due(
    alloc: Global,
    here: NodeNo,
    node: &BookNode,
    tid: Tid,
    tx: &Transaction,
    op: &Op,
) -> Result<bool, NoMemory>
    ensures { IfOk result (λ due. due ≡ is_note_due here.0 node.now tid tx.now op.now) }
{
    if !tx.is_asked() || files_count(here, node, tx) == 0 {
        return Ok(false);
    }
    let note = files_note(alloc, here, node, tid, tx)?;
    Ok(is_note(&note.text, op) && !tx.has_note(&note))
}
