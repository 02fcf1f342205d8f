//! Decisions: what the home records, whom it tells, and how the servers of a node learn how a transaction ends.
ghost use Rattle.std.specs.Prelude.{◌≡◌, [], fold, OnOk, IfOk};
ghost use Rattle.qs_base.specs.declared.identifiers.Outcome.TheVariants as outcomes;
ghost use Rattle.qs_book_journal.specs.declared.entry.Act.TheVariants as acts;
ghost use Rattle.qs_packet.specs.declared.message.Message.TheVariants as messages;
ghost use Rattle.qs_tm.specs.Manager as tm;
ghost use Rattle.qs_tm.specs.Participant as participant;
ghost use Rattle.qs_node_step.specs.State.{with_manager};
ghost use Rattle.qs_node_step.specs.Bringing.{enter, send_each, log_if};
ghost use Rattle.qs_node_step.specs.Deciding.{notice_of, notify, end_member, end_members, learn_member, learn_members, learners_at, give_notices, keep_outcome, decide, decide_commit};

use qs_base::{Copied, List, NoMemory, NodeNo, Outcome, ServerNo, Tid};
use qs_book_journal::Act;
use qs_node_kept::Decided;
use qs_node_servers::Servers;
use qs_node_step::Work;
use qs_node_work::{enter, log_if, member_here, send_each};
use qs_ops::{Cause, Notice, Server};
use qs_packet::Message;
use qs_tm::{Decision, Due};

/// The most bytes before each record in a batch that a node is made with.
const MOST_EXTRA: u64 = 8;

/// The most bytes kept for a transaction that has not ended that a node is made with.
const MOST_KEPT: u64 = 144;

/// The notice of an outcome.
fn notice_of(outcome: Outcome) -> Notice
    ensures { result ≡ notice_of outcome }
{
    match outcome {
        Outcome::Commit => Notice::Commit,
        Outcome::Abort => Notice::Abort,
    }
}

/// The server takes a notice in, and has learnt how the transaction ends.
fn notify<F: Server, X: Server>(
    work: &mut Work<Servers<F, X>>,
    tid: Tid,
    notice: Notice,
    server: ServerNo,
)
    ensures ok { work.new ≡ notify tid notice server work.old }
    ensures saved { work.new.node.kept.saved ≡ work.old.node.kept.saved }
{
    work.node.servers.note(server, tid, notice);
    work.node.manager.settled(tid, server);
}

/// The servers to which that is due.
pub fn servers_due<F: Server, X: Server>(
    work: &Work<Servers<F, X>>,
    tid: Tid,
    due: Due,
) -> Result<List<ServerNo>, NoMemory>
    ensures { IfOk result (λ servers. servers ≡ tm.told_of tid [] (participant.servers_due due) work.now.node.manager) }
{
    let alloc = work.node.manager.alloc;
    match work.node.manager.part(tid) {
        None => Ok(List::new(alloc)),
        Some(part) => part.servers_due(alloc, due),
    }
}

/// An immediate server is told that the transaction ends.
fn end_member<F: Server, X: Server>(
    work: &mut Work<Servers<F, X>>,
    tid: Tid,
    server: ServerNo,
) -> Result<(), NoMemory>
    ensures ok { OnOk result (work.new ≡ end_member tid work.old server) }
    ensures saved { work.new.node.kept.saved ≡ work.old.node.kept.saved }
{
    notify(work, tid, Notice::Ending, server);
    let member = member_here(work, server);
    enter(work, Act::Ending { tid, member })
}

fn end_each<F: Server, X: Server>(
    work: &mut Work<Servers<F, X>>,
    tid: Tid,
    servers: &[ServerNo],
) -> Result<(), NoMemory>
    ensures ok { OnOk result (work.new ≡ fold (end_member tid) work.old servers.now) }
    ensures saved { work.new.node.kept.saved ≡ work.old.node.kept.saved }
{
    for server in servers {
        end_member(work, tid, *server)?;
    }
    Ok(())
}

/// Each immediate server that is to be told that the transaction ends is told it.
pub fn end_members<F: Server, X: Server>(
    work: &mut Work<Servers<F, X>>,
    tid: Tid,
) -> Result<(), NoMemory>
    ensures ok { OnOk result (work.new ≡ end_members tid work.old) }
    ensures saved { work.new.node.kept.saved ≡ work.old.node.kept.saved }
{
    let due = servers_due(work, tid, Due::Ending)?;
    end_each(work, tid, due.as_slice())
}

/// A server learns the outcome.
fn learn_member<F: Server, X: Server>(
    work: &mut Work<Servers<F, X>>,
    tid: Tid,
    outcome: Outcome,
    server: ServerNo,
) -> Result<(), NoMemory>
    ensures ok { OnOk result (work.new ≡ learn_member tid outcome work.old server) }
    ensures saved { work.new.node.kept.saved ≡ work.old.node.kept.saved }
{
    notify(work, tid, notice_of(outcome), server);
    let member = member_here(work, server);
    enter(
        work,
        Act::Learn {
            tid,
            member,
            outcome,
        },
    )
}

fn learn_each<F: Server, X: Server>(
    work: &mut Work<Servers<F, X>>,
    tid: Tid,
    outcome: Outcome,
    servers: &[ServerNo],
) -> Result<(), NoMemory>
    ensures ok { OnOk result (work.new ≡ fold (learn_member tid outcome) work.old servers.now) }
    ensures saved { work.new.node.kept.saved ≡ work.old.node.kept.saved }
{
    for server in servers {
        learn_member(work, tid, outcome, *server)?;
    }
    Ok(())
}

/// The servers that are still to learn the outcome.
fn learners_at<F: Server, X: Server>(
    work: &Work<Servers<F, X>>,
    tid: Tid,
) -> Result<List<ServerNo>, NoMemory>
    ensures { IfOk result (λ servers. servers ≡ learners_at tid work.now) }
{
    let alloc = work.node.manager.alloc;
    match work.node.manager.part(tid) {
        None => Ok(List::new(alloc)),
        Some(part) => part.learners(alloc),
    }
}

fn learn_members<F: Server, X: Server>(
    work: &mut Work<Servers<F, X>>,
    tid: Tid,
    outcome: Outcome,
) -> Result<(), NoMemory>
    ensures ok { OnOk result (work.new ≡ learn_members tid outcome work.old) }
    ensures saved { work.new.node.kept.saved ≡ work.old.node.kept.saved }
{
    let learners = learners_at(work, tid)?;
    learn_each(work, tid, outcome, learners.as_slice())
}

/// The servers are told the outcome; on abort immediate servers get their endings first.
pub fn give_notices<F: Server, X: Server>(
    work: &mut Work<Servers<F, X>>,
    tid: Tid,
    outcome: Outcome,
) -> Result<(), NoMemory>
    ensures ok { OnOk result (work.new ≡ give_notices tid outcome work.old) }
    ensures saved { work.new.node.kept.saved ≡ work.old.node.kept.saved }
{
    match outcome {
        Outcome::Commit => learn_members(work, tid, Outcome::Commit),
        Outcome::Abort => {
            end_members(work, tid)?;
            learn_members(work, tid, Outcome::Abort)
        }
    }
}

fn copy_cause(cause: &Option<Cause>) -> Result<Option<Cause>, NoMemory>
    ensures { IfOk result (λ copy. copy ≡ cause.now) }
{
    match cause {
        None => Ok(None),
        Some(cause) => Ok(Some(cause.copy()?)),
    }
}

/// For the owner it is kept through restarts.
fn keep_outcome<F: Server, X: Server>(
    work: &mut Work<Servers<F, X>>,
    tid: Tid,
    outcome: Outcome,
    cause: &Option<Cause>,
) -> Result<(), NoMemory>
    ensures ok { OnOk result (work.new ≡ keep_outcome tid outcome cause.now work.old) }
    ensures saved { work.new.node.kept.saved ≡ work.old.node.kept.saved }
{
    let cause = copy_cause(cause)?;
    work.node.kept.put_outcome(Decided {
        tid,
        outcome,
        cause,
    })
}

/// The decision counts, and its record is appended, where there is one; the nodes that are to be told.
fn log_decision<F: Server, X: Server>(
    work: &mut Work<Servers<F, X>>,
    tid: Tid,
    outcome: Outcome,
) -> Result<List<NodeNo>, NoMemory>
    ensures tell { IfOk result (λ tell. tell ≡ (tm.decision tid outcome work.old.node.manager).tell) }
    ensures ok { OnOk result (work.new ≡ log_if (tm.decision tid outcome work.old.node.manager).rec (with_manager (tm.decide tid outcome) work.old)) }
    ensures saved { work.new.node.kept.saved ≡ work.old.node.kept.saved }
{
    let Decision { rec, tell } = work.node.manager.decide(tid, outcome)?;
    log_if(work, rec)?;
    Ok(tell)
}

/// The decision is kept for the owner, its entry stands, and the servers are told.
fn enter_decision<F: Server, X: Server>(
    work: &mut Work<Servers<F, X>>,
    tid: Tid,
    outcome: Outcome,
    cause: Option<Cause>,
) -> Result<(), NoMemory>
    ensures ok { OnOk result (work.new ≡ give_notices tid outcome (enter (acts.Decide tid outcome cause) (keep_outcome tid outcome cause work.old))) }
    ensures saved { work.new.node.kept.saved ≡ work.old.node.kept.saved }
{
    let Ok(()) = keep_outcome(work, tid, outcome, &cause) else {
        drop(cause);
        return Err(NoMemory);
    };
    enter(
        work,
        Act::Decide {
            tid,
            outcome,
            cause,
        },
    )?;
    give_notices(work, tid, outcome)
}

/// These nodes are told the outcome.
pub fn tell_each<F: Server, X: Server>(
    work: &mut Work<Servers<F, X>>,
    nodes: &[NodeNo],
    tid: Tid,
    outcome: Outcome,
) -> Result<(), NoMemory>
    ensures ok { OnOk result (work.new ≡ send_each nodes.now (messages.Tell tid outcome) work.old) }
    ensures saved { work.new.node.kept.saved ≡ work.old.node.kept.saved }
{
    let message = Message::Tell { tid, outcome };
    let told = send_each(work, nodes, &message);
    drop(message);
    told
}

/// The home decides: a commit is recorded and forced where its log has a Prepare or a node is to be told; an
/// abort ends a Prepare. The cause is `None` exactly on commit.
pub fn decide<F: Server, X: Server>(
    work: &mut Work<Servers<F, X>>,
    tid: Tid,
    outcome: Outcome,
    cause: Option<Cause>,
) -> Result<(), NoMemory>
    ensures ok { OnOk result (work.new ≡ decide tid outcome cause work.old) }
    ensures saved { work.new.node.kept.saved ≡ work.old.node.kept.saved }
{
    let Ok(tell) = log_decision(work, tid, outcome) else {
        drop(cause);
        return Err(NoMemory);
    };
    enter_decision(work, tid, outcome, cause)?;
    tell_each(work, tell.as_slice(), tid, outcome)
}

/// How many bytes the Commit needs, where it finds no room and nothing is kept for it. No node is made with
/// more than 8 bytes before each record, or more than 144 bytes kept for a transaction: such settings are
/// answered as a refusal of memory, before anything is counted.
fn need_past<F: Server, X: Server>(
    work: &Work<Servers<F, X>>,
    tid: Tid,
) -> Result<Option<u64>, NoMemory>
    ensures { IfOk result (λ need. need ≡ tm.need_past tid work.now.room work.now.node.manager) }
{
    let manager = &work.node.manager;
    if manager.extra > MOST_EXTRA || manager.keep > MOST_KEPT {
        return Err(NoMemory);
    }
    manager.need_past(tid, work.room)
}

/// The home commits; where the Commit finds no room, and nothing is kept for it, it aborts. The error is a
/// refusal of memory, or stands for settings that no node is made with.
pub fn decide_commit<F: Server, X: Server>(
    work: &mut Work<Servers<F, X>>,
    tid: Tid,
) -> Result<(), NoMemory>
    ensures ok { OnOk result (work.new ≡ decide_commit tid work.old) }
    ensures saved { work.new.node.kept.saved ≡ work.old.node.kept.saved }
{
    match need_past(work, tid)? {
        None => decide(work, tid, Outcome::Commit, None),
        Some(need) => {
            let room = work.room;
            decide(work, tid, Outcome::Abort, Some(Cause::Room { need, room }))
        }
    }
}
