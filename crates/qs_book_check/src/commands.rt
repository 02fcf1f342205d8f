//! What a client makes is what the first of its commands that are not answered says, once.
ghost use Rattle.std.specs.Prelude.{◌≡◌};
ghost use Rattle.std.specs.Option.{option_copied};
ghost use Rattle.qs_book_conformance.specs.Commands.{is_begin, is_request, is_tid, is_label_of, says_begin, says_commit, says_abort, says_yield, says_request, is_nothing, broken_command, broken_begin, broken_ask, broken_ask_by, broken_asked, broken_asked_by};

use crate::alike::same_op;
use qs_base::{Bytes, ClientNo, Member, NodeNo, Tid};
use qs_book::Book;
use qs_book_conformance::{CommandMade, Rule};
use qs_book_course::{Course, owner_of};
use qs_book_journal::{Command, ScriptLine};
use qs_ops::Op;

/// Whether it is a begin.
pub fn is_begin(command: &Command) -> bool
    ensures { result ≡ is_begin command.now }
{
    matches!(command, Command::Begin)
}

fn is_request(member: Member, op: &Op, command: &Command) -> bool
    ensures { result ≡ is_request member op.now command.now }
{
    match command {
        Command::Request { member: m, op: o } => member == *m && same_op(op, o),
        _ => false,
    }
}

fn is_tid(tid: Tid, begun: Option<Tid>) -> bool
    ensures { result ≡ is_tid tid begun }
{
    match begun {
        Some(begun) => tid == begun,
        None => false,
    }
}

/// Whether that label began the transaction.
pub fn is_label_of(book: &Book, tid: Tid, label: &Bytes) -> bool
    ensures { result ≡ is_label_of book.now tid label.now }
{
    is_tid(tid, book.begun_as(label))
}

// ---- what the command says

fn says_begin(label: &Bytes, line: Option<&ScriptLine>) -> bool
    ensures { result ≡ says_begin label.now (option_copied line.entry) }
{
    match line {
        Some(line) => line.label.as_slice() == label.as_slice() && is_begin(&line.command),
        None => false,
    }
}

fn says_commit(book: &Book, tid: Tid, line: Option<&ScriptLine>) -> bool
    ensures { result ≡ says_commit book.now tid (option_copied line.entry) }
{
    match line {
        Some(line) => {
            is_label_of(book, tid, &line.label) && matches!(line.command, Command::Commit)
        }
        None => false,
    }
}

fn says_abort(book: &Book, tid: Tid, line: Option<&ScriptLine>) -> bool
    ensures { result ≡ says_abort book.now tid (option_copied line.entry) }
{
    match line {
        Some(line) => is_label_of(book, tid, &line.label) && matches!(line.command, Command::Abort),
        None => false,
    }
}

/// Whether a command yields the transaction.
pub fn says_yield(book: &Book, tid: Tid, line: Option<&ScriptLine>) -> bool
    ensures { result ≡ says_yield book.now tid (option_copied line.entry) }
{
    match line {
        Some(line) => is_label_of(book, tid, &line.label) && matches!(line.command, Command::Yield),
        None => false,
    }
}

/// Whether a command makes that request.
pub fn says_request(
    book: &Book,
    tid: Tid,
    member: Member,
    op: &Op,
    line: Option<&ScriptLine>,
) -> bool
    ensures { result ≡ says_request book.now tid member op.now (option_copied line.entry) }
{
    match line {
        Some(line) => {
            is_label_of(book, tid, &line.label) && is_request(member, op, &line.command)
        }
        None => false,
    }
}

// ---- the rule

fn is_nothing(made: CommandMade) -> bool
    ensures { result ≡ is_nothing made }
{
    matches!(made, CommandMade::Nothing)
}

/// The command says so, and has made nothing yet.
pub fn broken_command(says: bool, made: CommandMade) -> Option<Rule>
    ensures { result ≡ broken_command says made }
{
    if !says {
        return Some(Rule::CarriesOutItsCommand);
    }
    if !is_nothing(made) {
        return Some(Rule::OncePerCommand);
    }
    None
}

// ---- who begins, asks and aborts

/// The rule that a begin breaks.
pub fn broken_begin(course: &Course, here: NodeNo, label: &Bytes, client: ClientNo) -> Option<Rule>
    ensures { result ≡ broken_begin course.now here.0 label.now client }
{
    broken_command(
        says_begin(label, course.first_at(here, client)),
        course.made_by(client),
    )
}

fn broken_ask_by(course: &Course, here: NodeNo, tid: Tid, owner: Option<ClientNo>) -> Option<Rule>
    ensures { result ≡ broken_ask_by course.now here.0 tid owner }
{
    match owner {
        Some(owner) => broken_command(
            says_commit(course.book(), tid, course.first_at(here, owner)),
            course.made_by(owner),
        ),
        None => Some(Rule::CarriesOutItsCommand),
    }
}

/// The rule that an ask breaks.
pub fn broken_ask(course: &Course, here: NodeNo, tid: Tid) -> Option<Rule>
    ensures { result ≡ broken_ask course.now here.0 tid }
{
    broken_ask_by(course, here, tid, owner_of(course.book(), tid))
}

fn broken_asked_by(course: &Course, here: NodeNo, tid: Tid, owner: Option<ClientNo>) -> Option<Rule>
    ensures { result ≡ broken_asked_by course.now here.0 tid owner }
{
    match owner {
        Some(owner) => broken_command(
            says_abort(course.book(), tid, course.first_at(here, owner)),
            course.made_by(owner),
        ),
        None => Some(Rule::CarriesOutItsCommand),
    }
}

/// The rule that an abort by its owner's command breaks.
pub fn broken_asked(course: &Course, here: NodeNo, tid: Tid) -> Option<Rule>
    ensures { result ≡ broken_asked course.now here.0 tid }
{
    broken_asked_by(course, here, tid, owner_of(course.book(), tid))
}
