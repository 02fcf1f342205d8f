//! The opening of the machine: what the logs name stands in it.
ghost use Rattle.std.specs.Prelude.{◌≡◌, IfOk, OnOk, length};
ghost use Rattle.std.specs.List.{fold, list_any};
ghost use Rattle.qs_book_machine.specs.Restart.{member_at};
ghost use Rattle.qs_book_machine.specs.Transaction.{found_at};
ghost use Rattle.qs_book_machine.specs.Book.{with_transaction};
ghost use Rattle.qs_book_machine.specs.Opening.{opening, has_commit, name_all, name_from, name_pending, name_transaction, opened_transaction};

use super::restarting::member_at;
use super::{Book, transactions};
use crate::node::BookNode;
use crate::opening::{no_owners, opened_nodes};
use qs_base::{NoMemory, NodeNo, Tid};
use qs_book_machine::{Cell, Opened, Pending};
use qs_book_transactions::Transaction;
use qs_ops::Cause;
use std::alloc::Global;
use std::collections::BTreeMap;

impl Book {
    /// The machine as a run of these nodes begins: each is up in its incarnation, with what its log
    /// holds committed and what it holds pending. A transaction that a log names has the cell commit
    /// where any log of the run has its Commit, abort where its home is in the run and none has it,
    /// and else open.
    pub fn opening(alloc: Global, opened: &[Opened]) -> Result<Book, NoMemory>
        ensures { IfOk result (λ book. book ≡ opening opened.now) }
    {
        let owners = no_owners(alloc)?;
        let nodes = opened_nodes(alloc, opened)?;
        let mut book = Book {
            alloc,
            stamp: 0,
            node: NodeNo(0),
            place: 0,
            nodes,
            labels: BTreeMap::new(alloc),
            transactions: BTreeMap::new(alloc),
            owners,
        };
        match name_from_first(&mut book, opened) {
            Ok(()) => Ok(book),
            Err(refused) => {
                drop(book);
                Err(refused)
            }
        }
    }

    /// A transaction that a log names stands in the machine.
    fn name_transaction(&mut self, tid: &Tid) -> Result<(), NoMemory>
        ensures { OnOk result (self.new ≡ name_transaction self.old tid.now) }
    {
        if self.transactions.contains_key(tid) {
            return Ok(());
        }
        let tx = opened_transaction(self.alloc, self.nodes.as_slice(), *tid);
        transactions::put(&mut self.transactions, *tid, tx)
    }

    fn find_pending(&mut self, here: NodeNo, inc: u64, vote: &Pending) -> Result<(), NoMemory>
        ensures { OnOk result (self.new ≡ with_transaction vote.now.tid (found_at (member_at here.0 vote.now.server.0) inc vote.now.covers (length vote.now.changes)) self.old) }
    {
        let member = member_at(here, vote.server);
        let changes = vote.changes.len() as u64;
        let covers = u64::from(vote.covers);
        transactions::find_vote(
            &mut self.transactions,
            vote.tid,
            member,
            inc,
            covers,
            changes,
        )
    }

    /// A vote that a log holds was left to its member.
    fn name_pending(&mut self, here: NodeNo, inc: u64, vote: &Pending) -> Result<(), NoMemory>
        ensures { OnOk result (self.new ≡ name_pending here.0 inc self.old vote.now) }
    {
        self.name_transaction(&vote.tid)?;
        self.find_pending(here, inc, vote)
    }
}

/// Whether the log of any node has the transaction's Commit.
fn has_commit(nodes: &[BookNode], tid: Tid) -> bool
    ensures { result ≡ list_any (has_commit tid) nodes.now }
{
    nodes.iter().any(|node| node.held_commit(tid))
}

fn opened_transaction(alloc: Global, nodes: &[BookNode], tid: Tid) -> Transaction
    ensures { result ≡ opened_transaction nodes.now tid }
{
    if has_commit(nodes, tid) {
        return Transaction::opened(alloc, Cell::Commit, None);
    }
    if usize::from(tid.home.0) < nodes.len() {
        return Transaction::opened(alloc, Cell::Abort, Some(Cause::Home { inc: tid.inc }));
    }
    Transaction::opened(alloc, Cell::Open, None)
}

fn name_commits(book: &mut Book, committed: &[Tid]) -> Result<(), NoMemory>
    ensures { OnOk result (book.new ≡ fold name_transaction book.old committed.now) }
{
    for tid in committed {
        book.name_transaction(tid)?;
    }
    Ok(())
}

fn name_votes(book: &mut Book, here: NodeNo, inc: u64, pending: &[Pending]) -> Result<(), NoMemory>
    ensures { OnOk result (book.new ≡ fold (name_pending here.0 inc) book.old pending.now) }
{
    for vote in pending {
        book.name_pending(here, inc, vote)?;
    }
    Ok(())
}

/// All that the log of a node names.
fn name_all(book: &mut Book, here: NodeNo, one: &Opened) -> Result<(), NoMemory>
    ensures { OnOk result (book.new ≡ name_all here.0 one.now book.old) }
{
    name_commits(book, one.committed.as_slice())?;
    name_votes(book, here, one.inc, one.pending.as_slice())
}

/// All that the logs name, the first node's first. More than 255 nodes count as want of memory.
fn name_from_first(book: &mut Book, opened: &[Opened]) -> Result<(), NoMemory>
    ensures { OnOk result (book.new ≡ name_from 0 opened.now book.old) }
{
    let mut here = 0u8;
    let mut rest = opened;
    while let [one, more @ ..] = rest {
        name_all(book, NodeNo(here), one)?;
        let Some(next) = here.checked_add(1) else {
            return Err(NoMemory);
        };
        here = next;
        rest = more;
    }
    Ok(())
}
