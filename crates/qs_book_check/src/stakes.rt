//! Quotas and audit: what files vote for, and which notes files issue.
ghost use Rattle.std.specs.Prelude.{◌≡◌, IfOk};
ghost use Rattle.std.specs.Option.{option_copied};
ghost use Rattle.qs_book_conformance.specs.Files.{quota_of, quota_at, is_within, is_noted, needs_no_note, broken_owed_note, broken_stake, broken_refusal, broken_ballot, broken_files_vote, broken_vote, broken_found_vote, broken_found, broken_restart, is_audit_at, broken_note};

use qs_base::{Member, NoMemory, NodeNo, Tid};
use qs_book::{BookNode, files_note, is_new_vote};
use qs_book_conformance::{NodeCourse, Rule};
use qs_book_course::{Course, DEFAULT_QUOTA};
use qs_book_journal::Found;
use qs_book_transactions::Transaction;
use qs_ops::servers::{AUDIT, FILES};
use qs_ops::{Reason, Vote};
use std::alloc::Global;

fn quota_of(node: Option<&NodeCourse>) -> u64
    ensures { result ≡ quota_of (option_copied node.entry) }
{
    match node {
        Some(node) => node.quota,
        None => DEFAULT_QUOTA,
    }
}

fn quota_at(course: &Course, here: NodeNo) -> u64
    ensures { result ≡ quota_at course.now here.0 }
{
    quota_of(course.node(here))
}

fn is_within(
    quota: u64,
    node: &BookNode,
    here: NodeNo,
    tid: Tid,
    tx: &Transaction,
) -> Result<bool, NoMemory>
    ensures { IfOk result (λ yes. yes ≡ is_within quota node.now here.0 tid tx.now) }
{
    let files = Member {
        node: here,
        server: FILES,
    };
    if tx.is_crossed(files) {
        return Ok(true);
    }
    Ok(node.files().view_bytes(tid)? <= quota)
}

fn is_noted(
    alloc: Global,
    node: &BookNode,
    here: NodeNo,
    tid: Tid,
    tx: &Transaction,
) -> Result<bool, NoMemory>
    ensures { IfOk result (λ yes. yes ≡ is_noted node.now here.0 tid tx.now) }
{
    let note = files_note(alloc, here, node, tid, tx)?;
    Ok(tx.has_note(&note))
}

/// Whether files owe no note: none is asked for, or it is not known which of two was served.
fn needs_no_note(audit: Option<NodeNo>, tx: &Transaction) -> bool
    ensures { result ≡ needs_no_note audit tx.now }
{
    match audit {
        None => true,
        Some(node) => tx.is_crossed(Member {
            node,
            server: AUDIT,
        }),
    }
}

fn broken_owed_note(
    course: &Course,
    node: &BookNode,
    here: NodeNo,
    tid: Tid,
    tx: &Transaction,
) -> Result<Option<Rule>, NoMemory>
    ensures { IfOk result (λ rule. rule ≡ broken_owed_note course.now node.now here.0 tid tx.now) }
{
    if needs_no_note(course.audit(), tx) || is_noted(course.alloc(), node, here, tid, tx)? {
        return Ok(None);
    }
    Ok(Some(Rule::NoteWasServed))
}

// ---- votes that are made

fn broken_stake(
    course: &Course,
    node: &BookNode,
    here: NodeNo,
    tid: Tid,
    tx: &Transaction,
) -> Result<Option<Rule>, NoMemory>
    ensures { IfOk result (λ rule. rule ≡ broken_stake course.now node.now here.0 tid tx.now) }
{
    if !is_within(quota_at(course, here), node, here, tid, tx)? {
        return Ok(Some(Rule::WithinQuota));
    }
    broken_owed_note(course, node, here, tid, tx)
}

fn broken_refusal(
    course: &Course,
    node: &BookNode,
    here: NodeNo,
    tid: Tid,
    tx: &Transaction,
) -> Result<Option<Rule>, NoMemory>
    ensures { IfOk result (λ rule. rule ≡ broken_refusal course.now node.now here.0 tid tx.now) }
{
    if !is_within(quota_at(course, here), node, here, tid, tx)? {
        return Ok(Some(Rule::WithinQuota));
    }
    Ok(None)
}

fn broken_ballot(
    course: &Course,
    node: &BookNode,
    here: NodeNo,
    tid: Tid,
    tx: &Transaction,
    vote: &Vote,
) -> Result<Option<Rule>, NoMemory>
    ensures { IfOk result (λ rule. rule ≡ broken_ballot course.now node.now here.0 tid tx.now vote.now) }
{
    match vote {
        Vote::Abort {
            reason: Reason::Quota { limit, .. },
        } if *limit == quota_at(course, here) => Ok(None),
        Vote::Abort {
            reason: Reason::Quota { .. },
        } => Ok(Some(Rule::LimitIsTheQuota)),
        Vote::Abort {
            reason: Reason::LogRoom { .. },
        } => broken_refusal(course, node, here, tid, tx),
        Vote::Recoverable => broken_stake(course, node, here, tid, tx),
        _ => Ok(None),
    }
}

fn broken_files_vote(
    course: &Course,
    node: Option<&BookNode>,
    here: NodeNo,
    tid: Tid,
    tx: Option<&Transaction>,
    vote: &Vote,
) -> Result<Option<Rule>, NoMemory>
    ensures { IfOk result (λ rule. rule ≡ broken_files_vote course.now (option_copied node.entry) here.0 tid (option_copied tx.entry) vote.now) }
{
    match (node, tx) {
        (Some(node), Some(tx)) => broken_ballot(course, node, here, tid, tx, vote),
        _ => Ok(None),
    }
}

/// The rule that a vote breaks. The only error is a refusal of memory.
pub fn broken_vote(
    course: &Course,
    here: NodeNo,
    tid: Tid,
    member: Member,
    vote: &Vote,
) -> Result<Option<Rule>, NoMemory>
    ensures { IfOk result (λ rule. rule ≡ broken_vote course.now here.0 tid member vote.now) }
{
    if member.server != FILES {
        return Ok(None);
    }
    let book = course.book();
    let tx = book.transaction(tid);
    broken_files_vote(course, book.state(here), here, tid, tx, vote)
}

// ---- votes that a restart finds

fn broken_found_vote(
    course: &Course,
    node: &BookNode,
    here: NodeNo,
    found: Found,
    tx: Option<&Transaction>,
) -> Result<Option<Rule>, NoMemory>
    ensures { IfOk result (λ rule. rule ≡ broken_found_vote course.now node.now here.0 found (option_copied tx.entry)) }
{
    match tx {
        Some(known) if found.server == FILES && is_new_vote(here, node, tx, found) => {
            broken_owed_note(course, node, here, found.tid, known)
        }
        _ => Ok(None),
    }
}

fn broken_found(
    course: &Course,
    node: &BookNode,
    here: NodeNo,
    pend: &[Found],
) -> Result<Option<Rule>, NoMemory>
    ensures { IfOk result (λ rule. rule ≡ broken_found course.now node.now here.0 pend.now) }
{
    let mut rest = pend;
    while let [found, more @ ..] = rest {
        let tx = course.book().transaction(found.tid);
        if let Some(rule) = broken_found_vote(course, node, here, *found, tx)? {
            return Ok(Some(rule));
        }
        rest = more;
    }
    Ok(None)
}

/// The rule that a restart breaks. The only error is a refusal of memory.
pub fn broken_restart(
    course: &Course,
    here: NodeNo,
    pend: &[Found],
) -> Result<Option<Rule>, NoMemory>
    ensures { IfOk result (λ rule. rule ≡ broken_restart course.now here.0 pend.now) }
{
    match course.book().state(here) {
        Some(node) => broken_found(course, node, here, pend),
        None => Ok(None),
    }
}

// ---- notes

fn is_audit_at(audit: Option<NodeNo>, member: Member) -> bool
    ensures { result ≡ is_audit_at audit member }
{
    match audit {
        Some(node) => member.node == node && member.server == AUDIT,
        None => false,
    }
}

/// The rule that an issue of files breaks.
pub fn broken_note(course: &Course, member: Member) -> Option<Rule>
    ensures { result ≡ broken_note course.now member }
{
    if is_audit_at(course.audit(), member) {
        return None;
    }
    Some(Rule::NoteGoesToAudit)
}
