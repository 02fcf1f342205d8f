//! Which of its loans a borrower's command speaks of, what that loan is worth, and who may use it.
ghost use Rattle.std.specs.Prelude.{◌≡◌};
ghost use Rattle.std.specs.Option.{option_copied};
ghost use Rattle.qs_book_conformance.specs.Borrowing.{node_no, owns, knows_abort, is_void, stands, has_loan, broken_loan_use, stands_for, broken_yield, may_issue, broken_request};

use crate::commands::{broken_command, says_request, says_yield};
use qs_base::{ClientNo, Member, NodeNo, Tid};
use qs_book::Book;
use qs_book_conformance::{Loan, Rule};
use qs_book_course::{ClientCourse, Course};
use qs_book_transactions::Transaction;
use qs_ops::Op;

/// Whether the client owns it.
pub fn owns(owner: Option<ClientNo>, client: ClientNo) -> bool
    ensures { result ≡ owns owner client }
{
    match owner {
        Some(owner) => owner == client,
        None => false,
    }
}

fn knows_abort(book: &Book, here: NodeNo, tx: &Transaction) -> bool
    ensures { result ≡ knows_abort book.now here.0 tx.now }
{
    tx.learnt_abort(here, book.inc_at(here))
}

/// Whether a loan is worth nothing any more: its node restarted since, or knows abort.
pub fn is_void(book: &Book, here: NodeNo, tx: &Transaction, loan: Loan) -> bool
    ensures { result ≡ is_void book.now here.0 tx.now loan }
{
    loan.inc != book.inc_at(here) || knows_abort(book, here, tx)
}

fn stands(book: &Book, here: NodeNo, tx: &Transaction, loan: Option<Loan>) -> bool
    ensures { result ≡ stands book.now here.0 tx.now loan }
{
    match loan {
        Some(loan) => !loan.given_back && !is_void(book, here, tx, loan),
        None => false,
    }
}

fn has_loan(
    course: &Course,
    here: NodeNo,
    tid: Tid,
    tx: &Transaction,
    client: Option<&ClientCourse>,
) -> bool
    ensures { result ≡ has_loan course.now here.0 tid tx.now (option_copied client.entry) }
{
    match client {
        Some(client) => stands(course.book(), here, tx, client.present_loan(tid)),
        None => false,
    }
}

fn broken_loan_use(stands: bool, broken: Option<Rule>) -> Option<Rule>
    ensures { result ≡ broken_loan_use stands broken }
{
    match broken {
        Some(rule) => Some(rule),
        None if stands => None,
        None => Some(Rule::LoanStands),
    }
}

fn stands_for(
    course: &Course,
    here: NodeNo,
    tid: Tid,
    client: ClientNo,
    tx: Option<&Transaction>,
) -> bool
    ensures { result ≡ stands_for course.now here.0 tid client (option_copied tx.entry) }
{
    match tx {
        Some(tx) => has_loan(course, here, tid, tx, course.client(client)),
        None => false,
    }
}

/// The rule that a yield breaks.
pub fn broken_yield(course: &Course, here: NodeNo, tid: Tid, client: ClientNo) -> Option<Rule>
    ensures { result ≡ broken_yield course.now here.0 tid client }
{
    let tx = course.book().transaction(tid);
    broken_loan_use(
        stands_for(course, here, tid, client, tx),
        broken_command(
            says_yield(course.book(), tid, course.first_at(here, client)),
            course.made_by(client),
        ),
    )
}

fn may_issue(
    course: &Course,
    here: NodeNo,
    tid: Tid,
    client: ClientNo,
    tx: Option<&Transaction>,
) -> bool
    ensures { result ≡ may_issue course.now here.0 tid client (option_copied tx.entry) }
{
    match tx {
        Some(tx) => {
            owns(tx.owner(), client) || has_loan(course, here, tid, tx, course.client(client))
        }
        None => false,
    }
}

/// The rule that the request of a client breaks.
pub fn broken_request(
    course: &Course,
    here: NodeNo,
    tid: Tid,
    client: ClientNo,
    member: Member,
    op: &Op,
) -> Option<Rule>
    ensures { result ≡ broken_request course.now here.0 tid client member op.now }
{
    let tx = course.book().transaction(tid);
    broken_loan_use(
        may_issue(course, here, tid, client, tx),
        broken_command(
            says_request(
                course.book(),
                tid,
                member,
                op,
                course.first_at(here, client),
            ),
            course.made_by(client),
        ),
    )
}
