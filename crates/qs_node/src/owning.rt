//! What the owner of a transaction commands.
ghost use Rattle.std.specs.Prelude.{◌≡◌, OnOk, IfOk, Some};
ghost use Rattle.std.specs.Option.{option_copied};
ghost use Rattle.qs_base.specs.declared.identifiers.Outcome.TheVariants as outcomes;
ghost use Rattle.qs_ops.specs.declared.answer.Cause.TheVariants as causes;
ghost use Rattle.qs_node_step.specs.Asking.{where_undecided};
ghost use Rattle.qs_node_step.specs.Deciding.{decide};
ghost use Rattle.qs_node_step.specs.Commands.{enter_ask, ask, open_command, aborted_answer, outcome_answer, decided_answer, owner_command};
ghost use Rattle.qs_node.specs.Begun.{peers_of, peers_to_ask, kept_answer};

use crate::requesting::request_command;
use qs_base::{ClientNo, Copied, List, NoMemory, NodeNo, Outcome, Tid};
use qs_book_journal::{Act, Command};
use qs_node_kept::Decided;
use qs_node_servers::Servers;
use qs_node_settling::{become_asked, decide};
use qs_node_step::Work;
use qs_node_work::{answer, enter, note_asked};
use qs_ops::{Answer, Cause, Server};
use qs_tm::Participant;
use std::alloc::Global;

/// The entry stands, and the step asked for the commit.
fn enter_ask<F: Server, X: Server>(work: &mut Work<Servers<F, X>>, tid: Tid) -> Result<(), NoMemory>
    ensures ok { OnOk result (work.new ≡ enter_ask tid work.old) }
    ensures saved { work.new.node.kept.saved ≡ work.old.node.kept.saved }
{
    enter(work, Act::Ask { tid })?;
    note_asked(work, tid)
}

fn peers_of(alloc: Global, part: &Participant) -> Result<Option<List<NodeNo>>, NoMemory>
    ensures { IfOk result (λ peers. peers ≡ peers_of part.now) }
{
    if part.asked {
        Ok(None)
    } else {
        Ok(Some(part.engage.uncovered().listed(alloc)?))
    }
}

/// The peers that are to be asked for their votes; `None` where the transaction is not open here, or was
/// asked for before.
fn peers_to_ask<F: Server, X: Server>(
    work: &Work<Servers<F, X>>,
    tid: Tid,
) -> Result<Option<List<NodeNo>>, NoMemory>
    ensures { IfOk result (λ peers. peers ≡ peers_to_ask tid work.now) }
{
    match work.node.manager.part(tid) {
        None => Ok(None),
        Some(part) => {
            if part.outcome.is_none() {
                peers_of(work.node.manager.alloc, part)
            } else {
                Ok(None)
            }
        }
    }
}

/// The owner asks for commit, once.
fn ask<F: Server, X: Server>(work: &mut Work<Servers<F, X>>, tid: Tid) -> Result<(), NoMemory>
    ensures ok { OnOk result (work.new ≡ where_undecided tid (ask tid) work.old) }
    ensures saved { work.new.node.kept.saved ≡ work.old.node.kept.saved }
{
    match peers_to_ask(work, tid)? {
        None => Ok(()),
        Some(peers) => {
            enter_ask(work, tid)?;
            become_asked(work, tid, peers.as_slice())
        }
    }
}

/// The owner aborts a transaction whose outcome is not known yet.
fn abort<F: Server, X: Server>(work: &mut Work<Servers<F, X>>, tid: Tid) -> Result<(), NoMemory>
    ensures ok { OnOk result (work.new ≡ where_undecided tid (λ part. decide tid outcomes.Abort (Some causes.Asked)) work.old) }
    ensures saved { work.new.node.kept.saved ≡ work.old.node.kept.saved }
{
    let Some(part) = work.node.manager.part(tid) else {
        return Ok(());
    };
    if part.outcome.is_some() {
        return Ok(());
    }
    decide(work, tid, Outcome::Abort, Some(Cause::Asked))
}

fn open_command<F: Server, X: Server>(
    work: &mut Work<Servers<F, X>>,
    client: ClientNo,
    tid: Tid,
    command: Command,
) -> Result<(), NoMemory>
    ensures ok { OnOk result (work.new ≡ open_command client tid command work.old) }
    ensures saved { work.new.node.kept.saved ≡ work.old.node.kept.saved }
{
    match command {
        Command::Commit => ask(work, tid),
        Command::Abort => abort(work, tid),
        Command::Request { member, op } => request_command(work, client, tid, member, op),
        Command::Begin | Command::Take | Command::Yield => Ok(()),
    }
}

fn aborted_answer(cause: Option<&Cause>) -> Result<Answer, NoMemory>
    ensures { IfOk result (λ said. said ≡ aborted_answer (option_copied cause.entry)) }
{
    match cause {
        None => Ok(Answer::Ended),
        Some(cause) => Ok(Answer::Aborted {
            cause: cause.copy()?,
        }),
    }
}

fn outcome_answer(decided: &Decided) -> Result<Answer, NoMemory>
    ensures { IfOk result (λ said. said ≡ outcome_answer decided.now) }
{
    match decided.outcome {
        Outcome::Commit => Ok(Answer::Committed),
        Outcome::Abort => aborted_answer(decided.cause.as_ref()),
    }
}

/// What a command of the owner is answered once the transaction is decided.
pub fn decided_answer(decided: &Decided, command: &Command) -> Result<Answer, NoMemory>
    ensures { IfOk result (λ said. said ≡ decided_answer decided.now command.now) }
{
    match command {
        Command::Commit | Command::Abort => outcome_answer(decided),
        Command::Begin | Command::Take | Command::Yield | Command::Request { .. } => {
            Ok(Answer::Ended)
        }
    }
}

/// The answer to a command of the owner, where the outcome is kept.
fn kept_answer<F: Server, X: Server>(
    work: &Work<Servers<F, X>>,
    tid: Tid,
    command: &Command,
) -> Result<Option<Answer>, NoMemory>
    ensures { IfOk result (λ said. said ≡ kept_answer tid command.now work.now.node) }
{
    match work.node.kept.outcome_of(tid) {
        None => Ok(None),
        Some(decided) => Ok(Some(decided_answer(decided, command)?)),
    }
}

/// The owner's command. Without a transaction its `begin` was refused.
pub fn owner_command<F: Server, X: Server>(
    work: &mut Work<Servers<F, X>>,
    client: ClientNo,
    tid: Option<Tid>,
    command: Command,
) -> Result<(), NoMemory>
    ensures ok { OnOk result (work.new ≡ owner_command client tid command work.old) }
    ensures saved { work.new.node.kept.saved ≡ work.old.node.kept.saved }
{
    let Some(tid) = tid else {
        drop(command);
        return answer(work, client, Answer::NotBegun);
    };
    let Ok(kept) = kept_answer(work, tid, &command) else {
        drop(command);
        return Err(NoMemory);
    };
    match kept {
        None => open_command(work, client, tid, command),
        Some(said) => {
            drop(command);
            answer(work, client, said)
        }
    }
}
