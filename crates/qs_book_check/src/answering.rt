//! Which answers are due to a command.
ghost use Rattle.std.specs.Prelude.{◌≡◌};
ghost use Rattle.std.specs.Option.{option_copied};
ghost use Rattle.std.specs.List.{list_any};
ghost use Rattle.qs_book_conformance.specs.Alike.{is_answer_of as answers};
ghost use Rattle.qs_book_conformance.specs.Answers.{is_ok, is_ended, is_not_yours, is_not_begun, is_log_full, is_begin_answer, is_replied, is_outcome_answer, is_owned_answer, is_owner_answer, is_loan_answer, is_lent_answer, is_yield_answer, is_borrower_answer, is_known_answer, is_label_answer, is_due, broken_due, broken_line, broken_answer};
ghost use Rattle.qs_book_conformance.specs.Course.{borrowing_of, replies_to};

use crate::alike::is_answer_of;
use crate::commands::is_begin;
use crate::lending::{is_void, owns};
use qs_base::{ClientNo, NodeNo, Tid};
use qs_book::BookNode;
use qs_book_conformance::{CommandMade, Loan, Rule};
use qs_book_course::{ClientCourse, Course};
use qs_book_journal::{Command, ScriptLine};
use qs_book_machine::Cell;
use qs_book_transactions::Transaction;
use qs_ops::{Answer, Cause, Reply};

fn is_ok(answer: &Answer) -> bool
    ensures { result ≡ is_ok answer.now }
{
    matches!(answer, Answer::Done)
}

fn is_ended(answer: &Answer) -> bool
    ensures { result ≡ is_ended answer.now }
{
    matches!(answer, Answer::Ended)
}

fn is_not_yours(answer: &Answer) -> bool
    ensures { result ≡ is_not_yours answer.now }
{
    matches!(answer, Answer::NotYours)
}

fn is_not_begun(answer: &Answer) -> bool
    ensures { result ≡ is_not_begun answer.now }
{
    matches!(answer, Answer::NotBegun)
}

// ---- begin

fn is_log_full(node: Option<&BookNode>, answer: &Answer) -> bool
    ensures { result ≡ is_log_full (option_copied node.entry) answer.now }
{
    match (node, answer) {
        (Some(node), Answer::LogFull { need, room }) => *need == node.keep() && *room < *need,
        _ => false,
    }
}

fn is_begin_answer(node: Option<&BookNode>, made: CommandMade, answer: &Answer) -> bool
    ensures { result ≡ is_begin_answer (option_copied node.entry) made answer.now }
{
    match made {
        CommandMade::Begun => is_ok(answer),
        CommandMade::Nothing => is_log_full(node, answer),
        _ => false,
    }
}

// ---- replies

fn any_answers(answer: &Answer, replies: &[Reply]) -> bool
    ensures { result ≡ list_any (answers answer.now) replies.now }
{
    replies.iter().any(|reply| is_answer_of(answer, reply))
}

fn is_replied(course: &Course, made: CommandMade, answer: &Answer) -> bool
    ensures { result ≡ is_replied course.now made answer.now }
{
    match made {
        CommandMade::Issued { sought } => any_answers(answer, course.replies_to(sought)),
        _ => false,
    }
}

// ---- the owner

fn is_outcome_answer(cell: Cell, cause: Option<&Cause>, answer: &Answer) -> bool
    ensures { result ≡ is_outcome_answer cell (option_copied cause.entry) answer.now }
{
    match (cell, cause, answer) {
        (Cell::Commit, _, Answer::Committed) => true,
        (Cell::Abort, Some(cause), Answer::Aborted { cause: told }) => told.is(cause),
        _ => false,
    }
}

fn is_owned_answer(cell: Cell, replied: bool, answer: &Answer) -> bool
    ensures { result ≡ is_owned_answer cell replied answer.now }
{
    match cell {
        Cell::Open => replied,
        _ => is_ended(answer),
    }
}

fn is_owner_answer(
    course: &Course,
    tx: &Transaction,
    made: CommandMade,
    command: &Command,
    answer: &Answer,
) -> bool
    ensures { result ≡ is_owner_answer course.now tx.now made command.now answer.now }
{
    match command {
        Command::Commit | Command::Abort => is_outcome_answer(tx.cell(), tx.cause(), answer),
        Command::Request { .. } => {
            is_owned_answer(tx.cell(), is_replied(course, made, answer), answer)
        }
        _ => false,
    }
}

// ---- a borrower

fn is_loan_answer(
    course: &Course,
    here: NodeNo,
    tx: &Transaction,
    loan: Loan,
    well: bool,
    answer: &Answer,
) -> bool
    ensures { result ≡ is_loan_answer course.now here.0 tx.now loan well answer.now }
{
    if loan.given_back {
        return is_not_yours(answer);
    }
    if is_void(course.book(), here, tx, loan) {
        return is_ended(answer);
    }
    well || tx.cell() == Cell::Abort && is_ended(answer)
}

fn is_lent_answer(
    course: &Course,
    here: NodeNo,
    tx: &Transaction,
    loan: Option<Loan>,
    well: bool,
    answer: &Answer,
) -> bool
    ensures { result ≡ is_lent_answer course.now here.0 tx.now loan well answer.now }
{
    match loan {
        Some(loan) => is_loan_answer(course, here, tx, loan, well, answer),
        None => false,
    }
}

fn is_yield_answer(
    course: &Course,
    here: NodeNo,
    tx: &Transaction,
    loan: Option<Loan>,
    made: CommandMade,
    answer: &Answer,
) -> bool
    ensures { result ≡ is_yield_answer course.now here.0 tx.now loan made answer.now }
{
    match made {
        CommandMade::GaveBack => is_ok(answer),
        _ => is_lent_answer(course, here, tx, loan, false, answer),
    }
}

/// A borrower's command: who it is, and on which transaction.
#[derive(Clone, Copy)]
struct Borrowed<'a> {
    here: NodeNo,
    tid: Tid,
    tx: &'a Transaction,
    client: &'a ClientCourse,
}

fn is_borrower_answer(
    course: &Course,
    borrowed: &Borrowed<'_>,
    command: &Command,
    answer: &Answer,
) -> bool
    ensures { result ≡ is_borrower_answer course.now borrowed.now.here.0 borrowed.now.tx.now (borrowing_of borrowed.now.client.now borrowed.now.tid) borrowed.now.client.now.made command.now answer.now }
{
    let Borrowed {
        here,
        tid,
        tx,
        client,
    } = *borrowed;
    match command {
        Command::Take => {
            is_lent_answer(
                course,
                here,
                tx,
                client.next_loan(tid),
                is_ok(answer),
                answer,
            )
        }
        Command::Yield => {
            is_yield_answer(
                course,
                here,
                tx,
                client.present_loan(tid),
                client.made(),
                answer,
            )
        }
        Command::Request { .. } => {
            let replied = is_replied(course, client.made(), answer);
            is_lent_answer(course, here, tx, client.present_loan(tid), replied, answer)
        }
        _ => false,
    }
}

// ---- all commands

/// The command of a client at its node.
#[derive(Clone, Copy)]
struct AskedCommand<'a> {
    here: NodeNo,
    client: ClientNo,
    state: &'a ClientCourse,
    command: &'a Command,
}

fn is_known_answer(
    course: &Course,
    asked: &AskedCommand<'_>,
    tid: Tid,
    tx: Option<&Transaction>,
    answer: &Answer,
) -> bool
    ensures { result ≡ is_known_answer course.now asked.now.here.0 asked.now.client asked.now.state.now tid (option_copied tx.entry) asked.now.command.now answer.now }
{
    let Some(tx) = tx else {
        return false;
    };
    if owns(tx.owner(), asked.client) {
        return is_owner_answer(course, tx, asked.state.made(), asked.command, answer);
    }
    let borrowed = Borrowed {
        here: asked.here,
        tid,
        tx,
        client: asked.state,
    };
    is_borrower_answer(course, &borrowed, asked.command, answer)
}

fn is_label_answer(
    course: &Course,
    asked: &AskedCommand<'_>,
    tid: Option<Tid>,
    answer: &Answer,
) -> bool
    ensures { result ≡ is_label_answer course.now asked.now.here.0 asked.now.client asked.now.state.now tid asked.now.command.now answer.now }
{
    match tid {
        Some(tid) => is_known_answer(course, asked, tid, course.book().transaction(tid), answer),
        None => false,
    }
}

fn is_due(
    course: &Course,
    here: NodeNo,
    client: ClientNo,
    state: &ClientCourse,
    line: &ScriptLine,
    answer: &Answer,
) -> bool
    ensures { result ≡ is_due course.now here.0 client state.now line.now answer.now }
{
    if state.is_refused(&line.label) {
        return is_not_begun(answer);
    }
    if is_begin(&line.command) {
        return is_begin_answer(course.book().state(here), state.made(), answer);
    }
    let asked = AskedCommand {
        here,
        client,
        state,
        command: &line.command,
    };
    is_label_answer(course, &asked, course.book().begun_as(&line.label), answer)
}

// ---- the rule

fn broken_due(first: bool, due: bool) -> Option<Rule>
    ensures { result ≡ broken_due first due }
{
    if !first {
        return Some(Rule::AnswersInOrder);
    }
    if !due {
        return Some(Rule::AnswerIsDue);
    }
    None
}

fn broken_line(
    course: &Course,
    here: NodeNo,
    client: ClientNo,
    state: &ClientCourse,
    first: Option<&ScriptLine>,
    line: u32,
    answer: &Answer,
) -> Option<Rule>
    ensures { result ≡ broken_line course.now here.0 client state.now (option_copied first.entry) line answer.now }
{
    match first {
        Some(command) => broken_due(
            command.line == line,
            is_due(course, here, client, state, command, answer),
        ),
        None => Some(Rule::AnswersInOrder),
    }
}

/// The rule that an answer breaks.
pub fn broken_answer(
    course: &Course,
    here: NodeNo,
    client: ClientNo,
    line: u32,
    answer: &Answer,
) -> Option<Rule>
    ensures { result ≡ broken_answer course.now here.0 client line answer.now }
{
    match course.client(client) {
        Some(state) => {
            let first = course.first_at(here, client);
            broken_line(course, here, client, state, first, line, answer)
        }
        None => Some(Rule::AnswersInOrder),
    }
}
