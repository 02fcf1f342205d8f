//! What a node does of itself at the end of each step, for each transaction to which something may be due.
ghost use Rattle.std.specs.Prelude.{◌≡◌, fold, Some, OnOk};
ghost use Rattle.qs_engage.specs.Nodes.{listed};
ghost use Rattle.qs_tm.specs.Outcomes.{told_with_own};
ghost use Rattle.qs_node_step.specs.State.{here, part_of};
ghost use Rattle.qs_node_step.specs.Settling.{say_yes, answer_superior, ready_rule, refusal_goes_to, send_refusal, refuse_elsewhere, refuse_rule, forget_rule, try, settle_tid, settle};
ghost use Rattle.qs_node_settling.specs.Firsts.{IsFirst};

use crate::choosing::{First, first_due};
use crate::deciding::{decide, decide_commit};
use crate::telling::forget;
use crate::voting::vote_pass;
use qs_base::{Copied, List, NoMemory, NodeNo, Outcome, Tid};
use qs_node_servers::Servers;
use qs_node_step::Work;
use qs_node_work::send;
use qs_ops::{Cause, Server};
use qs_packet::Message;
use qs_tm::Participant;

// ---- readiness

/// The superior is answered with the number of its last request and this told set, and there is none then.
fn say_yes<F: Server, X: Server>(
    work: &mut Work<Servers<F, X>>,
    tid: Tid,
    superior: (NodeNo, u32),
    told: List<NodeNo>,
) -> Result<(), NoMemory>
    ensures ok { (part : Participant) → told ≡ listed (told_with_own (here work.old) part) → OnOk result (work.new ≡ say_yes tid part superior work.old) }
    ensures saved { work.new.node.kept.saved ≡ work.old.node.kept.saved }
{
    let _ = work.node.manager.released(tid);
    let (superior, up_to) = superior;
    send(work, superior, Message::VotedYes { tid, up_to, told })
}

/// The superior is answered, where there is one.
fn answer_superior<F: Server, X: Server>(
    work: &mut Work<Servers<F, X>>,
    tid: Tid,
) -> Result<(), NoMemory>
    ensures ok { OnOk result (work.new ≡ try tid answer_superior work.old) }
    ensures saved { work.new.node.kept.saved ≡ work.old.node.kept.saved }
{
    let Some(part) = work.node.manager.part(tid) else {
        return Ok(());
    };
    if part.outcome.is_some() {
        return Ok(());
    }
    let Some(superior) = part.engage.to_release() else {
        return Ok(());
    };
    let alloc = work.node.manager.alloc;
    let told = part.told_with_own(work.node.setting.node).listed(alloc)?;
    say_yes(work, tid, superior, told)
}

// ---- refusal

/// To the superior, or to the home where there is none.
fn refusal_goes_to(tid: Tid, part: &Participant) -> NodeNo
    ensures { result ≡ refusal_goes_to tid part.now }
{
    part.engage.superior().unwrap_or(tid.home)
}

fn send_refusal<F: Server, X: Server>(
    work: &mut Work<Servers<F, X>>,
    tid: Tid,
    to: NodeNo,
    cause: &Cause,
) -> Result<(), NoMemory>
    ensures ok { OnOk result (work.new ≡ send_refusal tid to work.old cause.now) }
    ensures saved { work.new.node.kept.saved ≡ work.old.node.kept.saved }
{
    let cause = cause.copy()?;
    send(work, to, Message::VotedAbort { tid, cause })
}

fn send_refusals<F: Server, X: Server>(
    work: &mut Work<Servers<F, X>>,
    tid: Tid,
    to: NodeNo,
    causes: &[Cause],
) -> Result<(), NoMemory>
    ensures ok { OnOk result (work.new ≡ fold (send_refusal tid to) work.old causes.now) }
    ensures saved { work.new.node.kept.saved ≡ work.old.node.kept.saved }
{
    for cause in causes {
        send_refusal(work, tid, to, cause)?;
    }
    Ok(())
}

/// Each cause is sent on once.
fn refuse_elsewhere<F: Server, X: Server>(
    work: &mut Work<Servers<F, X>>,
    tid: Tid,
    to: NodeNo,
) -> Result<(), NoMemory>
    ensures ok { (part : Participant) → part_of tid work.old ≡ Some part → to ≡ refusal_goes_to tid part → OnOk result (work.new ≡ refuse_elsewhere tid part work.old) }
    ensures saved { work.new.node.kept.saved ≡ work.old.node.kept.saved }
{
    let causes = work.node.manager.take_causes(tid);
    send_refusals(work, tid, to, causes.as_slice())
}

/// Causes are sent on, or the first decides at the home. Then another node than the home may forget.
fn refuse_and_forget<F: Server, X: Server>(
    work: &mut Work<Servers<F, X>>,
    tid: Tid,
) -> Result<(), NoMemory>
    ensures ok { OnOk result (work.new ≡ try tid forget_rule (try tid refuse_rule work.old)) }
    ensures saved { work.new.node.kept.saved ≡ work.old.node.kept.saved }
{
    let Some(part) = work.node.manager.part(tid) else {
        return Ok(());
    };
    if part.outcome.is_some() {
        return Ok(());
    }
    if !part.engage.home {
        let to = refusal_goes_to(tid, part);
        refuse_elsewhere(work, tid, to)?;
    } else {
        match part.causes.as_slice() {
            [] => return Ok(()),
            [cause, ..] => {
                let cause = cause.copy()?;
                decide(work, tid, Outcome::Abort, Some(cause))?;
            }
        }
    }
    forget_rule(work, tid);
    Ok(())
}

fn forget_rule<F: Server, X: Server>(work: &mut Work<Servers<F, X>>, tid: Tid)
    ensures ok { work.new ≡ try tid forget_rule work.old }
    ensures saved { work.new.node.kept.saved ≡ work.old.node.kept.saved }
{
    let Some(part) = work.node.manager.part(tid) else {
        return;
    };
    if part.outcome.is_some() {
        return;
    }
    if part.is_forgotten() {
        forget(work, tid);
    }
}

// ---- all of it

/// All rules but a pass, of which this is the first that does something.
fn settle_from<F: Server, X: Server>(
    work: &mut Work<Servers<F, X>>,
    tid: Tid,
    first: First,
) -> Result<(), NoMemory>
    requires { IsFirst tid work.old first }
    ensures ok { OnOk result (work.new ≡ try tid forget_rule (try tid refuse_rule (try tid ready_rule work.old))) }
    ensures saved { work.new.node.kept.saved ≡ work.old.node.kept.saved }
{
    match first {
        First::Nothing => return Ok(()),
        First::Commit => decide_commit(work, tid)?,
        First::Answer => answer_superior(work, tid)?,
        First::Pass | First::Refusal => {}
    }
    refuse_and_forget(work, tid)
}

/// What is due for one transaction.
fn settle_tid<F: Server, X: Server>(
    work: &mut Work<Servers<F, X>>,
    tid: Tid,
) -> Result<(), NoMemory>
    ensures ok { OnOk result (work.new ≡ settle_tid work.old tid) }
    ensures saved { work.new.node.kept.saved ≡ work.old.node.kept.saved }
{
    match first_due(work, tid) {
        First::Pass => {
            vote_pass(work, tid)?;
            let next = first_due(work, tid);
            settle_from(work, tid, next)
        }
        first => settle_from(work, tid, first),
    }
}

fn settle_each<F: Server, X: Server>(
    work: &mut Work<Servers<F, X>>,
    tids: &[Tid],
) -> Result<(), NoMemory>
    ensures ok { OnOk result (work.new ≡ fold settle_tid work.old tids.now) }
    ensures saved { work.new.node.kept.saved ≡ work.old.node.kept.saved }
{
    for tid in tids {
        settle_tid(work, *tid)?;
    }
    Ok(())
}

/// What is due for each transaction, in order. The only error is a refusal of memory, which also answers what no
/// node meets: more than 8 bytes before each record or 144 bytes kept for a transaction in its settings, and
/// 4,294,967,296 pending changes or more of one transaction at files.
pub fn settle<F: Server, X: Server>(work: &mut Work<Servers<F, X>>) -> Result<(), NoMemory>
    ensures ok { OnOk result (work.new ≡ settle work.old) }
    ensures saved { work.new.node.kept.saved ≡ work.old.node.kept.saved }
{
    let due = work.node.manager.due()?;
    settle_each(work, due.as_slice())
}
