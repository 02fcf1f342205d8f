//! The vote pass: immediate servers get their endings, and each two-phase server whose vote is due votes.
ghost use Rattle.std.specs.Prelude.{◌≡◌, true, false, [], fold, Some, None, OnOk, IfOk, if◌then◌else◌};
ghost use Rattle.qs_ops.specs.Server.{vote_of};
ghost use Rattle.qs_book_journal.specs.declared.entry.Act.TheVariants as acts;
ghost use Rattle.qs_tm.specs.Manager as tm;
ghost use Rattle.qs_tm.specs.Participant.{has_noted};
ghost use Rattle.qs_node_servers.specs.Servers.{server_at};
ghost use Rattle.qs_node_step.specs.State.{with_manager, with_doings};
ghost use Rattle.qs_node_step.specs.Bringing.{member_here, enter};
ghost use Rattle.qs_node_step.specs.Requests.{issue};
ghost use Rattle.qs_node_step.specs.Voting.{change_count, owes_note, note_text, issue_note, served_count, log_prepare, log_vote, vote_frame, vote_with, vote_next, vote_pass};

use crate::deciding::{end_members, servers_due};
use qs_base::{Bytes, Copied, Member, NoMemory, NodeNo, ServerNo, Tid};
use qs_book_journal::Act;
use qs_node_servers::Servers;
use qs_node_step::{NodeState, Work};
use qs_node_work::{enter, issue, log, member_here, note_prepared, note_voted};
use qs_ops::servers::{AUDIT, FILES};
use qs_ops::{Op, Server, Vote};
use qs_record::Record;
use qs_tm::Due;
use std::alloc::Global;

/// The bytes of a batch beside its records.
const BATCH_FRAME: u64 = 41;

// ---- notes: where audit is on, files that have changes pending vote only once a note with their present
// count was served

/// How many changes files have pending.
fn change_count<F: Server, X: Server>(
    node: &NodeState<Servers<F, X>>,
    tid: Tid,
) -> Result<u32, NoMemory>
    ensures { IfOk result (λ count. count ≡ change_count tid node.now) }
{
    let changes = node.servers.changes(FILES, tid)?;
    u32::try_from(changes.len()).map_err(|_| NoMemory)
}

/// Whether a note of files with this count of changes was served.
fn has_noted<F: Server, X: Server>(work: &Work<Servers<F, X>>, tid: Tid, count: u32) -> bool
    ensures { result ≡ tm.told_of tid false (has_noted count) work.now.node.manager }
{
    match work.node.manager.part(tid) {
        None => false,
        Some(part) => part.has_noted(count),
    }
}

/// The count of changes that files are to note before they vote.
fn note_due<F: Server, X: Server>(
    work: &Work<Servers<F, X>>,
    tid: Tid,
    server: ServerNo,
) -> Result<Option<u32>, NoMemory>
    ensures { IfOk result (λ due. due ≡ if owes_note tid server work.now then Some (change_count tid work.now.node) else None) }
{
    if server != FILES || work.node.setting.audit.is_none() {
        return Ok(None);
    }
    let count = change_count(&work.node, tid)?;
    if count > 0 && !has_noted(work, tid, count) {
        Ok(Some(count))
    } else {
        Ok(None)
    }
}

/// The text of such a note.
fn note_text(alloc: Global, tid: Tid, node: NodeNo, count: u32) -> Result<Bytes, NoMemory>
    ensures { IfOk result (λ text. text ≡ note_text tid node count) }
{
    let text = format!(in alloc;
        "{}.{}.{}:files@{}:{}",
        tid.home.0, tid.inc, tid.seq, node.0, count
    )?;
    Bytes::from_slice(alloc, text.as_bytes())
}

fn issue_note<F: Server, X: Server>(
    work: &mut Work<Servers<F, X>>,
    tid: Tid,
    count: u32,
) -> Result<(), NoMemory>
    requires { count ≡ change_count tid work.old.node }
    ensures ok { OnOk result (work.new ≡ issue_note tid work.old.node.setting.audit work.old) }
    ensures saved { work.new.node.kept.saved ≡ work.old.node.kept.saved }
{
    let Some(node) = work.node.setting.audit else {
        return Ok(());
    };
    let text = note_text(work.node.manager.alloc, tid, work.node.setting.node, count)?;
    let server = AUDIT;
    issue(
        work,
        tid,
        FILES,
        Member { node, server },
        Op::Note { text },
        count,
    )
}

// ---- votes

/// How many requests the server served, all of which its vote covers.
fn served_count<F: Server, X: Server>(work: &Work<Servers<F, X>>, tid: Tid, server: ServerNo) -> u32
    ensures { result ≡ served_count tid server work.now }
{
    match work.node.manager.part(tid) {
        None => 0,
        Some(part) => part.member(server).served,
    }
}

/// The vote counts, and its entry stands.
fn enter_vote<F: Server, X: Server>(
    work: &mut Work<Servers<F, X>>,
    tid: Tid,
    server: ServerNo,
    ballot: &Vote,
    covers: u32,
) -> Result<(), NoMemory>
    ensures ok { OnOk result (work.new ≡ enter (acts.Vote tid (member_here work.old server) ballot.now covers) (with_doings tid (λ doings. record doings { voted = true }) (with_manager (tm.voted tid (member_here work.old server) ballot.now covers) work.old))) }
    ensures saved { work.new.node.kept.saved ≡ work.old.node.kept.saved }
{
    let member = member_here(work, server);
    work.node.manager.voted(tid, member, ballot, covers)?;
    note_voted(work, tid)?;
    let vote = ballot.copy()?;
    enter(
        work,
        Act::Vote {
            tid,
            member,
            vote,
            covers,
        },
    )
}

/// The changes of a recoverable vote go on the disk in the step of the vote, and count from the next.
fn log_prepare<F: Server, X: Server>(
    work: &mut Work<Servers<F, X>>,
    tid: Tid,
    server: ServerNo,
) -> Result<(), NoMemory>
    ensures ok { OnOk result (work.new ≡ log_prepare tid server work.old) }
    ensures saved { work.new.node.kept.saved ≡ work.old.node.kept.saved }
{
    let changes = work.node.servers.changes(server, tid)?;
    let covers = served_count(work, tid, server);
    note_prepared(work, tid)?;
    log(
        work,
        Record::Prepare {
            tid,
            server,
            covers,
            changes,
        },
    )
}

fn log_vote<F: Server, X: Server>(
    work: &mut Work<Servers<F, X>>,
    ballot: &Vote,
    tid: Tid,
    server: ServerNo,
) -> Result<(), NoMemory>
    ensures ok { OnOk result (work.new ≡ log_vote ballot.now tid server work.old) }
    ensures saved { work.new.node.kept.saved ≡ work.old.node.kept.saved }
{
    match ballot {
        Vote::Recoverable => log_prepare(work, tid, server),
        Vote::Abort { .. } | Vote::ReadOnly | Vote::Volatile => Ok(()),
    }
}

/// The bytes that a Prepare takes beside its own. A sum that passes its type is a refusal of memory.
fn vote_frame<F: Server, X: Server>(work: &Work<Servers<F, X>>) -> Result<u64, NoMemory>
    ensures { IfOk result (λ frame. frame ≡ vote_frame work.now) }
{
    let setting = &work.node.setting;
    BATCH_FRAME
        .checked_add(setting.extra)
        .and_then(|bytes| bytes.checked_add(setting.keep))
        .ok_or(NoMemory)
}

/// The server votes.
fn vote_server<F: Server, X: Server>(
    work: &mut Work<Servers<F, X>>,
    tid: Tid,
    server: ServerNo,
) -> Result<(), NoMemory>
    ensures ok { OnOk result (work.new ≡ vote_with tid server (vote_of (server_at work.old.node.servers server) tid work.old.room (vote_frame work.old)) work.old) }
    ensures saved { work.new.node.kept.saved ≡ work.old.node.kept.saved }
{
    let covers = served_count(work, tid, server);
    let frame = vote_frame(work)?;
    let room = work.room;
    let ballot = work.node.servers.vote(server, tid, room, frame)?;
    enter_vote(work, tid, server, &ballot, covers)?;
    log_vote(work, &ballot, tid, server)
}

/// A server whose vote is due votes, or files note their changes first.
fn vote_next<F: Server, X: Server>(
    work: &mut Work<Servers<F, X>>,
    tid: Tid,
    server: ServerNo,
) -> Result<(), NoMemory>
    ensures ok { OnOk result (work.new ≡ vote_next tid work.old server) }
    ensures saved { work.new.node.kept.saved ≡ work.old.node.kept.saved }
{
    match note_due(work, tid, server)? {
        Some(count) => issue_note(work, tid, count),
        None => vote_server(work, tid, server),
    }
}

fn vote_each<F: Server, X: Server>(
    work: &mut Work<Servers<F, X>>,
    tid: Tid,
    servers: &[ServerNo],
) -> Result<(), NoMemory>
    ensures ok { OnOk result (work.new ≡ fold (vote_next tid) work.old servers.now) }
    ensures saved { work.new.node.kept.saved ≡ work.old.node.kept.saved }
{
    for server in servers {
        vote_next(work, tid, *server)?;
    }
    Ok(())
}

/// Each immediate server that is to be told that the transaction ends is told it, and each server whose vote
/// is due votes, in order of numbers.
pub fn vote_pass<F: Server, X: Server>(
    work: &mut Work<Servers<F, X>>,
    tid: Tid,
) -> Result<(), NoMemory>
    ensures ok { OnOk result (work.new ≡ vote_pass tid work.old) }
    ensures saved { work.new.node.kept.saved ≡ work.old.node.kept.saved }
{
    let due = servers_due(work, tid, Due::Vote)?;
    end_members(work, tid)?;
    vote_each(work, tid, due.as_slice())
}
