//! Answers, loans, endings, learning and crashes.
ghost use Rattle.std.specs.Prelude.{◌≡◌};
ghost use Rattle.std.specs.List.{list_any};
ghost use Rattle.std.specs.Option.{option_copied};
ghost use Rattle.qs_ops.specs.Members.{class_of};
ghost use Rattle.qs_book_machine.specs.Clauses.{is_known, broken_answer, borrower_at, may_lend, may_yield, broken_loan, broken_yield, may_end, broken_ending, may_learn, waits_for, earlier_servers, broken_learn, is_crash, broken_crash};

use crate::clauses::{
    ANSWER_IS_THE_CELL, ANSWERS_IN_ORDER, DISK_COUNT_ROSE, ENDING_IS_DUE, LEARNING_ORDER,
    LEARNS_THE_CELL, LOAN_FOLLOWS_ITS_LEND, READ_ONLY_LEARNS_NOTHING, YIELD_OF_A_STANDING_LOAN,
};
use crate::node::BookNode;
use qs_base::{Class, ClientNo, Member, NodeNo, Outcome, ServerNo, Stamp};
use qs_book_journal::CrashCause;
use qs_book_machine::{Cell, Owner, Part};
use qs_book_transactions::{Transaction, cell_of, is_let_go, may_learn_still};
use qs_ops::servers::{AUDIT, EXTRA, FILES, FIRST_CLIENT, NAMES, WINDOWS};
use qs_ops::{Answer, class_of, learns_outcome};

/// The first clause that an answer to a client breaks.
pub fn broken_answer(owner: Option<&Owner>, line: u32, answer: &Answer) -> Option<u16>
    ensures { result ≡ broken_answer (option_copied owner.entry) line answer.now }
{
    match owner {
        Some(owner) if owner.line < line => {
            if is_known(owner, answer) {
                None
            } else {
                Some(ANSWER_IS_THE_CELL)
            }
        }
        _ => Some(ANSWERS_IN_ORDER),
    }
}

fn is_known(owner: &Owner, answer: &Answer) -> bool
    ensures { result ≡ is_known owner.now answer.now }
{
    match answer {
        Answer::Committed => owner.committed,
        Answer::Aborted { cause } => owner.causes.has(cause),
        _ => true,
    }
}

/// The client as a member at `here`; `None` where no server number stands for it.
pub fn borrower_at(client: ClientNo, here: NodeNo) -> Option<Member>
    ensures { result ≡ borrower_at client here.0 }
{
    if client.0 > u8::MAX - FIRST_CLIENT.0 {
        return None;
    }
    Some(Member {
        node: here,
        server: ServerNo(client.0 + FIRST_CLIENT.0),
    })
}

fn may_lend(node: &BookNode, tx: &Transaction, member: Option<Member>, stamp: Stamp) -> bool
    ensures { result ≡ may_lend node.now tx.now member stamp }
{
    match member {
        Some(member) => tx.is_loan_due(member, node.inc(), stamp),
        None => false,
    }
}

/// The first clause that a loan to the client at `here` breaks, in a step of this stamp.
pub fn broken_loan(
    here: NodeNo,
    node: &BookNode,
    tx: Option<&Transaction>,
    client: ClientNo,
    stamp: Stamp,
) -> Option<u16>
    ensures { result ≡ broken_loan here.0 node.now (option_copied tx.entry) client stamp }
{
    match tx {
        Some(tx) if may_lend(node, tx, borrower_at(client, here), stamp) => None,
        _ => Some(LOAN_FOLLOWS_ITS_LEND),
    }
}

fn may_yield(node: &BookNode, tx: &Transaction, member: Option<Member>) -> bool
    ensures { result ≡ may_yield node.now tx.now member }
{
    match member {
        Some(member) => tx.has_loan(member, node.inc()),
        None => false,
    }
}

/// The first clause that a yield of the client at `here` breaks.
pub fn broken_yield(
    here: NodeNo,
    node: &BookNode,
    tx: Option<&Transaction>,
    client: ClientNo,
) -> Option<u16>
    ensures { result ≡ broken_yield here.0 node.now (option_copied tx.entry) client }
{
    match tx {
        Some(tx) if may_yield(node, tx, borrower_at(client, here)) => None,
        _ => Some(YIELD_OF_A_STANDING_LOAN),
    }
}

/// The first clause that an ending at `here` breaks.
pub fn broken_ending(
    here: NodeNo,
    node: &BookNode,
    tx: Option<&Transaction>,
    member: Member,
) -> Option<u16>
    ensures { result ≡ broken_ending here.0 node.now (option_copied tx.entry) member }
{
    match tx {
        Some(tx) if may_end(here, node, tx, member) => None,
        _ => Some(ENDING_IS_DUE),
    }
}

fn may_end(here: NodeNo, node: &BookNode, tx: &Transaction, member: Member) -> bool
    ensures { result ≡ may_end here.0 node.now tx.now member }
{
    class_of(member.server) == Class::Immediate
        && member.node == here
        && tx.part(member, node.inc()).due
        && (tx.is_asked() || tx.cell() == Cell::Abort)
}

/// The first clause that learning an outcome at `here` breaks.
pub fn broken_learn(
    here: NodeNo,
    node: &BookNode,
    tx: Option<&Transaction>,
    member: Member,
    outcome: Outcome,
) -> Option<u16>
    ensures { result ≡ broken_learn here.0 node.now (option_copied tx.entry) member outcome }
{
    let Some(tx) = tx else {
        return Some(LEARNS_THE_CELL);
    };
    let part = tx.part(member, node.inc());
    if !may_learn(here, tx, member, &part, outcome) {
        return Some(LEARNS_THE_CELL);
    }
    if is_let_go(&part) {
        return Some(READ_ONLY_LEARNS_NOTHING);
    }
    if some_wait(tx, member, node.inc()) {
        return Some(LEARNING_ORDER);
    }
    None
}

fn may_learn(here: NodeNo, tx: &Transaction, member: Member, part: &Part, outcome: Outcome) -> bool
    ensures { result ≡ may_learn here.0 tx.now member part.now outcome }
{
    cell_of(outcome) == tx.cell()
        && member.node == here
        && learns_outcome(class_of(member.server))
        && part.due
}

/// Whether a server of the member's node that has to learn before it could learn still.
fn some_wait(tx: &Transaction, member: Member, inc: u64) -> bool
    ensures { result ≡ list_any (waits_for tx.now member inc) (earlier_servers (class_of member.server.0)) }
{
    let class = class_of(member.server);
    if class != Class::Standard && class != Class::Delayed {
        return false;
    }
    waits_for(tx, member, inc, FILES)
        || waits_for(tx, member, inc, AUDIT)
        || waits_for(tx, member, inc, NAMES)
        || waits_for(tx, member, inc, EXTRA)
        || class == Class::Delayed && waits_for(tx, member, inc, WINDOWS)
}

fn waits_for(tx: &Transaction, member: Member, inc: u64, server: ServerNo) -> bool
    ensures { result ≡ waits_for tx.now member inc server.0 }
{
    let member = Member { server, ..member };
    may_learn_still(&tx.part(member, inc))
}

/// The first clause that a crash breaks.
pub fn broken_crash(cause: CrashCause) -> Option<u16>
    ensures { result ≡ broken_crash cause }
{
    if is_crash(cause) {
        None
    } else {
        Some(DISK_COUNT_ROSE)
    }
}

fn is_crash(cause: CrashCause) -> bool
    ensures { result ≡ is_crash cause }
{
    match cause {
        CrashCause::Disk { from, to } => from < to || from == u64::MAX && to == u64::MAX,
        _ => true,
    }
}
