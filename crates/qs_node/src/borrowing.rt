//! What a borrower commands.
ghost use Rattle.std.specs.Prelude.{◌≡◌, OnOk, if◌then◌else◌};
ghost use Rattle.qs_ops.specs.declared.answer.Answer.TheVariants as answers;
ghost use Rattle.qs_node_step.specs.Borrowing.{is_aborted, is_void, take, take_command, yield, lent_command, with_loan, loan_command, borrower_command};

use crate::requesting::request_command;
use qs_base::{ClientNo, NoMemory, Tid};
use qs_book_journal::{Act, Command};
use qs_node_kept::Lent;
use qs_node_servers::Servers;
use qs_node_step::Work;
use qs_node_work::{answer, enter, note_yielded};
use qs_ops::{Answer, Server};

/// Whether the outcome is known here, and is abort.
pub fn is_aborted<F: Server, X: Server>(work: &Work<Servers<F, X>>, tid: Tid) -> bool
    ensures { result ≡ is_aborted tid work.now.node }
{
    match work.node.manager.part(tid) {
        Some(part) => part.is_aborted(),
        None => false,
    }
}

/// Whether the loan is worth nothing any more: the node restarted since, or knows abort.
fn is_void<F: Server, X: Server>(work: &Work<Servers<F, X>>, tid: Tid, loan: &Lent) -> bool
    ensures { result ≡ is_void tid loan.now work.now.node }
{
    loan.inc != work.node.setting.inc || is_aborted(work, tid)
}

/// What a take is answered, by whether its loan is worth nothing any more.
fn take_answer(has_ended: bool) -> Answer
    ensures { result ≡ (if has_ended then answers.Ended else answers.Done) }
{
    if has_ended {
        Answer::Ended
    } else {
        Answer::Done
    }
}

fn take<F: Server, X: Server>(
    work: &mut Work<Servers<F, X>>,
    client: ClientNo,
    tid: Tid,
    loan: &Lent,
) -> Result<(), NoMemory>
    ensures ok { OnOk result (work.new ≡ take client tid loan.now work.old) }
    ensures saved { work.new.node.kept.saved ≡ work.old.node.kept.saved }
{
    let has_ended = is_void(work, tid, loan);
    work.node.kept.take_first(client, tid)?;
    answer(work, client, take_answer(has_ended))
}

/// A take waits until a loan was made.
fn take_command<F: Server, X: Server>(
    work: &mut Work<Servers<F, X>>,
    client: ClientNo,
    tid: Tid,
) -> Result<(), NoMemory>
    ensures ok { OnOk result (work.new ≡ take_command client tid work.old) }
    ensures saved { work.new.node.kept.saved ≡ work.old.node.kept.saved }
{
    match work.node.kept.first_untaken(client, tid) {
        None => Ok(()),
        Some(loan) => take(work, client, tid, &loan),
    }
}

fn give_back<F: Server, X: Server>(
    work: &mut Work<Servers<F, X>>,
    client: ClientNo,
    tid: Tid,
) -> Result<(), NoMemory>
    ensures ok { OnOk result (work.new ≡ yield client tid work.old) }
    ensures saved { work.new.node.kept.saved ≡ work.old.node.kept.saved }
{
    work.node.kept.give_back(client, tid)?;
    enter(work, Act::Yield { tid, client })?;
    note_yielded(work, tid)?;
    answer(work, client, Answer::Done)
}

fn lent_command<F: Server, X: Server>(
    work: &mut Work<Servers<F, X>>,
    client: ClientNo,
    tid: Tid,
    command: Command,
) -> Result<(), NoMemory>
    ensures ok { OnOk result (work.new ≡ lent_command client tid command work.old) }
    ensures saved { work.new.node.kept.saved ≡ work.old.node.kept.saved }
{
    match command {
        Command::Yield => give_back(work, client, tid),
        Command::Request { member, op } => request_command(work, client, tid, member, op),
        Command::Begin | Command::Commit | Command::Abort | Command::Take => Ok(()),
    }
}

fn with_loan<F: Server, X: Server>(
    work: &mut Work<Servers<F, X>>,
    client: ClientNo,
    tid: Tid,
    command: Command,
    loan: &Lent,
) -> Result<(), NoMemory>
    ensures ok { OnOk result (work.new ≡ with_loan client tid command loan.now work.old) }
    ensures saved { work.new.node.kept.saved ≡ work.old.node.kept.saved }
{
    if loan.yielded {
        drop(command);
        answer(work, client, Answer::NotYours)
    } else if is_void(work, tid, loan) {
        drop(command);
        answer(work, client, Answer::Ended)
    } else {
        lent_command(work, client, tid, command)
    }
}

fn loan_command<F: Server, X: Server>(
    work: &mut Work<Servers<F, X>>,
    client: ClientNo,
    tid: Tid,
    command: Command,
) -> Result<(), NoMemory>
    ensures ok { OnOk result (work.new ≡ loan_command client tid command work.old) }
    ensures saved { work.new.node.kept.saved ≡ work.old.node.kept.saved }
{
    match work.node.kept.last_taken(client, tid) {
        None => {
            drop(command);
            Ok(())
        }
        Some(loan) => with_loan(work, client, tid, command, &loan),
    }
}

/// A command of a client to whom the transaction was lent, or is to be.
pub fn borrower_command<F: Server, X: Server>(
    work: &mut Work<Servers<F, X>>,
    client: ClientNo,
    tid: Tid,
    command: Command,
) -> Result<(), NoMemory>
    ensures ok { OnOk result (work.new ≡ borrower_command client tid command work.old) }
    ensures saved { work.new.node.kept.saved ≡ work.old.node.kept.saved }
{
    match command {
        Command::Take => take_command(work, client, tid),
        _ => loan_command(work, client, tid, command),
    }
}
