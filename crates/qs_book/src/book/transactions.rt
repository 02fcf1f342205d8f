//! What entries do to the transactions.
ghost use Rattle.std.specs.Prelude.{◌≡◌, IfOk, OnOk};
ghost use Rattle.std.specs.BTreeMap.{insert_entry, is_at};
ghost use Rattle.std.specs.Map.{lookup};
ghost use Rattle.std.specs.Option.{option_copied};
ghost use Rattle.qs_base.specs.Order.{tid_cmp};
ghost use Rattle.qs_book_machine.specs.Book.{crosses, crossed_in, pending_in};
ghost use Rattle.qs_book_machine.specs.Transaction.{changed_value, asked_at, counted, heard, ended, issued, voted, learnt, with_learnt, lent, given_back, found_at};

use qs_base::{Member, NoMemory, NodeNo, Outcome, Tid};
use qs_base_map::newest_first;
use qs_book_machine::{Link, Request, RequestNo};
use qs_book_transactions::Transaction;
use qs_ops::Vote;
use std::collections::BTreeMap;

/// What is kept of a transaction; `None` exactly where it is unknown.
pub fn find(transactions: &BTreeMap<Tid, Transaction>, tid: Tid) -> Option<&Transaction>
    ensures { option_copied result ≡ lookup (is_at (tid_cmp tid)) transactions.now.entries }
{
    newest_first(transactions, &tid)
}

/// Commit is asked for at this place in the history.
pub fn ask(transactions: &mut BTreeMap<Tid, Transaction>, tid: Tid, place: u64)
    ensures { transactions.new.entries ≡ changed_value (is_at (tid_cmp tid)) (asked_at place) transactions.old.entries }
{
    if let Some(tx) = transactions.get_mut(&tid) {
        tx.ask(place);
    }
}

/// A node counts the answer of a peer up to a number.
pub fn count(
    transactions: &mut BTreeMap<Tid, Transaction>,
    tid: Tid,
    link: Link,
    inc: u64,
    up_to: u32,
    peer_inc: u64,
)
    ensures { transactions.new.entries ≡ changed_value (is_at (tid_cmp tid)) (counted link inc up_to peer_inc) transactions.old.entries }
{
    if let Some(tx) = transactions.get_mut(&tid) {
        tx.count(link, inc, up_to, peer_inc);
    }
}

/// A client that sent a request to the node got an answer.
pub fn hear(transactions: &mut BTreeMap<Tid, Transaction>, tid: Tid, node: NodeNo, inc: u64)
    ensures { transactions.new.entries ≡ changed_value (is_at (tid_cmp tid)) (heard node inc) transactions.old.entries }
{
    if let Some(tx) = transactions.get_mut(&tid) {
        tx.hear(node, inc);
    }
}

/// An immediate member was told that the transaction ends.
pub fn end(transactions: &mut BTreeMap<Tid, Transaction>, tid: Tid, member: Member, inc: u64)
    ensures { transactions.new.entries ≡ changed_value (is_at (tid_cmp tid)) (ended member inc) transactions.old.entries }
{
    if let Some(tx) = transactions.get_mut(&tid) {
        tx.end(member, inc);
    }
}

/// A request is issued, at this place in the history. Whether its number crosses that of an earlier
/// request to its member, which was not served.
pub fn issue(
    transactions: &mut BTreeMap<Tid, Transaction>,
    tid: Tid,
    at: RequestNo,
    request: Request,
    peer_inc: u64,
    place: u64,
) -> Result<bool, NoMemory>
    ensures issued { OnOk result (transactions.new.entries ≡ changed_value (is_at (tid_cmp tid)) (issued at request peer_inc place) transactions.old.entries) }
    ensures crosses { IfOk result (λ crossed. crossed ≡ crosses (lookup (is_at (tid_cmp tid)) transactions.old.entries) at request.member) }
{
    let Some(tx) = transactions.get_mut(&tid) else {
        drop(request);
        return Ok(false);
    };
    let crossed = tx.standing_request(at, request.member).is_some();
    tx.issue(at, request, peer_inc, place)?;
    Ok(crossed)
}

/// What stood before a member's vote: how many changes it had pending, and whether its requests
/// crossed.
#[derive(Clone, Copy)]
pub struct BeforeVote {
    pub pending: u64,
    pub crossed: bool,
}

/// A member votes.
pub fn vote(
    transactions: &mut BTreeMap<Tid, Transaction>,
    tid: Tid,
    member: Member,
    inc: u64,
    vote: &Vote,
) -> Result<BeforeVote, NoMemory>
    ensures voted { OnOk result (transactions.new.entries ≡ changed_value (is_at (tid_cmp tid)) (voted member inc vote.now) transactions.old.entries) }
    ensures pending { IfOk result (λ before. before.pending ≡ pending_in (lookup (is_at (tid_cmp tid)) transactions.old.entries) member inc) }
    ensures crossed { IfOk result (λ before. before.crossed ≡ crossed_in (lookup (is_at (tid_cmp tid)) transactions.old.entries) member) }
{
    let Some(tx) = transactions.get_mut(&tid) else {
        return Ok(BeforeVote {
            pending: 0,
            crossed: false,
        });
    };
    let before = BeforeVote {
        pending: tx.part(member, inc).pending,
        crossed: tx.is_crossed(member),
    };
    tx.vote(member, inc, vote)?;
    Ok(before)
}

/// A member learns the outcome.
pub fn learn(
    transactions: &mut BTreeMap<Tid, Transaction>,
    tid: Tid,
    member: Member,
    inc: u64,
    outcome: Outcome,
) -> Result<(), NoMemory>
    ensures { OnOk result (transactions.new.entries ≡ changed_value (is_at (tid_cmp tid)) (learnt member inc outcome) transactions.old.entries) }
{
    if let Some(tx) = transactions.get_mut(&tid) {
        tx.learn(member, inc, outcome)?;
    }
    Ok(())
}

/// A member learnt commit as the Commit was found.
pub fn learn_found(
    transactions: &mut BTreeMap<Tid, Transaction>,
    tid: Tid,
    member: Member,
) -> Result<(), NoMemory>
    ensures { OnOk result (transactions.new.entries ≡ changed_value (is_at (tid_cmp tid)) (with_learnt member) transactions.old.entries) }
{
    if let Some(tx) = transactions.get_mut(&tid) {
        tx.learn_found(member)?;
    }
    Ok(())
}

/// A loan is made.
pub fn lend(
    transactions: &mut BTreeMap<Tid, Transaction>,
    tid: Tid,
    member: Member,
    inc: u64,
) -> Result<(), NoMemory>
    ensures { OnOk result (transactions.new.entries ≡ changed_value (is_at (tid_cmp tid)) (lent member inc) transactions.old.entries) }
{
    if let Some(tx) = transactions.get_mut(&tid) {
        tx.lend(member, inc)?;
    }
    Ok(())
}

/// A loan is given back.
pub fn give_back(
    transactions: &mut BTreeMap<Tid, Transaction>,
    tid: Tid,
    member: Member,
    inc: u64,
) -> Result<(), NoMemory>
    ensures { OnOk result (transactions.new.entries ≡ changed_value (is_at (tid_cmp tid)) (given_back member inc) transactions.old.entries) }
{
    if let Some(tx) = transactions.get_mut(&tid) {
        tx.give_back(member, inc)?;
    }
    Ok(())
}

/// A restart found a member's vote.
pub fn find_vote(
    transactions: &mut BTreeMap<Tid, Transaction>,
    tid: Tid,
    member: Member,
    inc: u64,
    covers: u64,
    changes: u64,
) -> Result<(), NoMemory>
    ensures { OnOk result (transactions.new.entries ≡ changed_value (is_at (tid_cmp tid)) (found_at member inc covers changes) transactions.old.entries) }
{
    if let Some(tx) = transactions.get_mut(&tid) {
        tx.find(member, inc, covers, changes)?;
    }
    Ok(())
}

/// A transaction stands in the machine.
pub fn put(
    transactions: &mut BTreeMap<Tid, Transaction>,
    tid: Tid,
    tx: Transaction,
) -> Result<(), NoMemory>
    ensures { OnOk result (transactions.new.entries ≡ insert_entry tid_cmp transactions.old.entries tid tx) }
{
    drop(transactions.insert(tid, tx)?);
    Ok(())
}
