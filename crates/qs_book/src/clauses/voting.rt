//! Vote.
ghost use Rattle.std.specs.Prelude.{◌≡◌, IfOk};
ghost use Rattle.std.specs.Option.{option_copied};
ghost use Rattle.qs_book_machine.specs.Clauses.{broken_vote, is_vote_due, is_log_full, is_files_vote, is_audit_vote, is_name, is_taken_name, is_names_vote, is_server_vote, has_vote, is_vote, is_extra_vote};
ghost use Rattle.qs_book_machine.specs.Transaction.{part_of};

use crate::clauses::{VOTE_BY_THE_RULES, VOTE_COVERS, VOTE_IS_DUE};
use crate::node::BookNode;
use qs_base::{Bytes, Member, NoMemory, NodeNo, ServerNo, Tid};
use qs_book_machine::Cell;
use qs_book_tables::Table;
use qs_book_transactions::Transaction;
use qs_ops::servers::{AUDIT, EXTRA, FILES, NAMES};
use qs_ops::{Reason, Vote, class_of, is_two_phase};

/// How a member votes, for so many requests.
#[derive(Clone, Copy)]
pub struct MemberVote<'a> {
    pub member: Member,
    pub vote: &'a Vote,
    pub covers: u32,
}

/// The first clause that a vote at `here` breaks.
pub fn broken_vote(
    here: NodeNo,
    node: &BookNode,
    tid: Tid,
    tx: Option<&Transaction>,
    ballot: &MemberVote<'_>,
) -> Result<Option<u16>, NoMemory>
    ensures { IfOk result (λ clause. clause ≡ broken_vote here.0 node.now tid (option_copied tx.entry) ballot.now.member ballot.now.vote.now ballot.now.covers) }
{
    let member = ballot.member;
    let Some(tx) = tx else {
        return Ok(Some(VOTE_IS_DUE));
    };
    if !is_vote_due(here, node, tx, member) {
        return Ok(Some(VOTE_IS_DUE));
    }
    if !tx.is_covering(member, node.inc(), u64::from(ballot.covers)) {
        return Ok(Some(VOTE_COVERS));
    }
    if !is_vote(node, tid, tx, member, ballot.vote)? {
        return Ok(Some(VOTE_BY_THE_RULES));
    }
    Ok(None)
}

fn is_vote_due(here: NodeNo, node: &BookNode, tx: &Transaction, member: Member) -> bool
    ensures { result ≡ is_vote_due here.0 tx.now member (part_of tx.now member node.now.inc) }
{
    let part = tx.part(member, node.inc());
    is_two_phase(class_of(member.server))
        && member.node == here
        && tx.is_asked()
        && tx.cell() != Cell::Commit
        && part.voted < part.served
}

/// Whether the Prepare record needs just so many bytes, and the log has not that room.
fn is_log_full(node: &BookNode, table: &Table, tid: Tid, need: u64, room: u64) -> bool
    ensures { result ≡ is_log_full node.now table.now tid need room }
{
    let frame = 41 + node.extra() + node.keep();
    match need.checked_sub(frame) {
        Some(length) => table.has_prepare_length(tid, length) && room < need,
        None => false,
    }
}

fn is_files_vote(node: &BookNode, tid: Tid, vote: &Vote) -> Result<bool, NoMemory>
    ensures { IfOk result (λ yes. yes ≡ is_files_vote node.now tid vote.now) }
{
    let files = node.files();
    let holds = files.has_changes(tid);
    Ok(match vote {
        Vote::ReadOnly => !holds,
        Vote::Recoverable => holds,
        Vote::Volatile => false,
        Vote::Abort { reason } => match reason {
            Reason::Quota { bytes, limit } => {
                holds && files.has_view_bytes(tid, *bytes)? && *limit < *bytes
            }
            Reason::LogRoom { need, room } => holds && is_log_full(node, files, tid, *need, *room),
            Reason::Taken { .. } | Reason::Code { .. } => false,
        },
    })
}

fn is_audit_vote(node: &BookNode, tid: Tid, vote: &Vote) -> bool
    ensures { result ≡ is_audit_vote node.now tid vote.now }
{
    let audit = node.audit();
    let holds = audit.has_changes(tid);
    match vote {
        Vote::ReadOnly => !holds,
        Vote::Recoverable => holds,
        Vote::Abort {
            reason: Reason::LogRoom { need, room },
        } => holds && is_log_full(node, audit, tid, *need, *room),
        Vote::Volatile | Vote::Abort { .. } => false,
    }
}

fn is_name(name: &Bytes, other: Option<&Bytes>) -> bool
    ensures { result ≡ is_name name.now (option_copied other.entry) }
{
    match other {
        Some(other) => name.as_slice() == other.as_slice(),
        None => false,
    }
}

fn is_taken_name(node: &BookNode, tid: Tid, name: &Bytes) -> bool
    ensures { result ≡ is_taken_name node.now tid name.now }
{
    let names = node.names();
    is_name(name, names.least_taken(tid))
        || names.changes_name(tid, name) && node.is_doubtful(tid, name)
}

fn is_names_vote(node: &BookNode, tid: Tid, vote: &Vote) -> bool
    ensures { result ≡ is_names_vote node.now tid vote.now }
{
    let names = node.names();
    let holds = names.has_changes(tid);
    match vote {
        Vote::ReadOnly => !holds,
        Vote::Volatile => holds && names.least_taken(tid).is_none(),
        Vote::Abort {
            reason: Reason::Taken { name },
        } => holds && is_taken_name(node, tid, name),
        Vote::Recoverable | Vote::Abort { .. } => false,
    }
}

fn is_server_vote(
    node: &BookNode,
    server: ServerNo,
    tid: Tid,
    vote: &Vote,
) -> Result<bool, NoMemory>
    ensures { IfOk result (λ yes. yes ≡ is_server_vote node.now server.0 tid vote.now) }
{
    match server {
        FILES => is_files_vote(node, tid, vote),
        AUDIT => Ok(is_audit_vote(node, tid, vote)),
        NAMES => Ok(is_names_vote(node, tid, vote)),
        EXTRA => Ok(is_read_only(vote)),
        _ => Ok(false),
    }
}

fn is_read_only(vote: &Vote) -> bool
    ensures { result ≡ is_extra_vote vote.now }
{
    match vote {
        Vote::ReadOnly => true,
        _ => false,
    }
}

/// Whether it is a vote that a server may make for something.
pub fn has_vote(server: ServerNo, vote: &Vote) -> bool
    ensures { result ≡ has_vote server.0 vote.now }
{
    match vote {
        Vote::ReadOnly => true,
        Vote::Volatile => server == NAMES,
        Vote::Recoverable => server == FILES || server == AUDIT,
        Vote::Abort { reason } => match reason {
            Reason::Quota { bytes, limit } => server == FILES && *limit < *bytes,
            Reason::LogRoom { need, room } => (server == FILES || server == AUDIT) && *room < *need,
            Reason::Taken { .. } => server == NAMES,
            Reason::Code { .. } => false,
        },
    }
}

fn is_vote(
    node: &BookNode,
    tid: Tid,
    tx: &Transaction,
    member: Member,
    vote: &Vote,
) -> Result<bool, NoMemory>
    ensures { IfOk result (λ yes. yes ≡ is_vote node.now tid tx.now member vote.now) }
{
    if tx.is_crossed(member) {
        return Ok(has_vote(member.server, vote));
    }
    is_server_vote(node, member.server, tid, vote)
}
