//! The reference machine: is an entry a lawful step, and what does it do.
ghost use Rattle.std.specs.Prelude.{◌≡◌, ◌⊎◌, ℕ, IfOk, OnOk, Some, None, Err, slice_get, length};
ghost use Rattle.std.specs.Option.{option_copied};

mod acts;
mod nodes;
mod opening;
mod owners;
mod restarting;
mod reviving;
mod transactions;

use crate::clauses::{
    Issue, MemberVote, NODE_IS_UP, STAMP_ORDER, Serve, broken_answer, broken_ask, broken_begin,
    broken_counted, broken_crash, broken_decide, broken_ending, broken_issue, broken_learn,
    broken_loan, broken_serve, broken_vote, broken_yield,
};
use crate::node::BookNode;
use qs_base::{Bytes, List, NoMemory, NodeNo, Stamp, Tid};
use qs_book_journal::{Act, Entry};
use qs_book_machine::{Cell, Owner};
use qs_book_transactions::Transaction;
use qs_ops::File;
pub use restarting::is_new_vote;
use std::alloc::Global;
use std::collections::BTreeMap;
use std::marker::Model;
pub use transactions::find;

/// Why an entry was not taken in.
#[derive(Clone, Copy)]
pub enum BookFault {
    /// The first clause of the lawful step that it breaks.
    Unlawful { clause: u16 },
    /// Memory was asked for and refused, or a counter stands at its last value. The book may have
    /// taken in a part of the entry, and is then neither what it was nor what it should be: it is
    /// good only to be dropped.
    NoMemory,
}

impl From<NoMemory> for BookFault {
    ghost use Rattle.qs_book.specs.declared.book.BookFault.TheVariants as faults;

    ghost from_gives = { λ error fault. fault ≡ faults.NoMemory };

    fn from(_error: NoMemory) -> BookFault {
        BookFault::NoMemory
    }
}

/// The reference machine. It has one outcome cell for each transaction.
#[derive(Drop)]
pub struct Book {
    alloc: Global,
    stamp: Stamp,
    node: NodeNo,
    place: u64,
    nodes: Vec<BookNode>,
    labels: BTreeMap<Bytes, Tid>,
    transactions: BTreeMap<Tid, Transaction>,
    owners: Vec<Owner>,
}

impl Model for Book {
    ghost use Rattle.qs_book_machine.specs.Book.{BookValue};

    ghost Value = { BookValue };

    ghost view = { λ b. record {
      stamp = b.stamp;
      node = b.node.0;
      place = b.place;
      nodes = b.nodes.items;
      labels = b.labels.entries;
      transactions = b.transactions.entries;
      owners = b.owners.items;
    } };
}

impl Book {
    ghost use Rattle.qs_book_machine.specs.Book.{find_transaction, find_label, inc_of, files_of, notes_of, extra_of_node, cell_of_transaction, inc_at};
    ghost use Rattle.qs_book_machine.specs.Lawful.{broken, broken_at, broken_node, broken_act, broken_end, is_in_order, effect, effect_act};

    /// The stamp of the last entry; 0 before the first.
    pub fn stamp(&self) -> Stamp
        ensures { result ≡ self.now.stamp }
    {
        self.stamp
    }

    /// All transactions, in the order of their identifiers.
    pub fn transactions(&self) -> &BTreeMap<Tid, Transaction>
        ensures { result.now.entries ≡ self.now.transactions }
    {
        &self.transactions
    }

    /// How many nodes the run has.
    pub fn node_count(&self) -> usize
        ensures { result ≡ length self.now.nodes }
    {
        self.nodes.len()
    }

    /// The node's incarnation; `None` exactly where the node is none of the run's.
    pub fn inc(&self, node: NodeNo) -> Option<u64>
        ensures { result ≡ inc_of (slice_get self.now.nodes node.0) }
    {
        self.nodes.get(usize::from(node.0)).map(|state| state.inc())
    }

    /// The node's committed files, in byte order of names; `None` exactly where the node is none of
    /// the run's.
    pub fn files(&self, node: NodeNo) -> Option<&List<File>>
        ensures { option_copied result ≡ files_of (slice_get self.now.nodes node.0) }
    {
        Some(self.nodes.get(usize::from(node.0))?.files().contents())
    }

    /// The node's committed audit notes, in order; `None` exactly where the node is none of the run's.
    pub fn audit(&self, node: NodeNo) -> Option<&List<Bytes>>
        ensures { option_copied result ≡ notes_of (slice_get self.now.nodes node.0) }
    {
        Some(self.nodes.get(usize::from(node.0))?.audit().notes())
    }

    /// The node's committed texts of the further server, in order; `None` exactly where the node is
    /// none of the run's.
    pub fn extra(&self, node: NodeNo) -> Option<&List<Bytes>>
        ensures { option_copied result ≡ extra_of_node (slice_get self.now.nodes node.0) }
    {
        Some(self.nodes.get(usize::from(node.0))?.extra_texts())
    }

    /// The transaction's outcome cell; `None` exactly where the transaction is unknown.
    pub fn cell(&self, tid: Tid) -> Option<Cell>
        ensures { result ≡ cell_of_transaction (find_transaction self.now tid) }
    {
        Some(find(&self.transactions, tid)?.cell())
    }

    /// What is kept of the transaction; `None` exactly where it is unknown.
    pub fn transaction(&self, tid: Tid) -> Option<&Transaction>
        ensures { option_copied result ≡ find_transaction self.now tid }
    {
        find(&self.transactions, tid)
    }

    /// The transaction that was begun under this label.
    pub fn begun_as(&self, label: &Bytes) -> Option<Tid>
        ensures { result ≡ find_label self.now label.now }
    {
        self.labels.get(label).copied()
    }

    /// What is kept of a node; `None` exactly where it is none of the run's.
    pub fn state(&self, node: NodeNo) -> Option<&BookNode>
        ensures { option_copied result ≡ slice_get self.now.nodes node.0 }
    {
        self.nodes.get(usize::from(node.0))
    }

    /// The incarnation of a node; 0 where it is none of the run's.
    pub fn inc_at(&self, node: NodeNo) -> u64
        ensures { result ≡ inc_at self.now node }
    {
        match self.nodes.get(usize::from(node.0)) {
            Some(state) => state.inc(),
            None => 0,
        }
    }

    /// The first clause of the lawful step that the entry breaks; `None` where it is lawful. The
    /// only error is a refusal of memory.
    pub fn broken(&self, entry: &Entry) -> Result<Option<u16>, NoMemory>
        ensures { IfOk result (λ clause. clause ≡ broken self.now entry.now) }
    {
        if !self.is_in_order(entry) {
            return Ok(Some(STAMP_ORDER));
        }
        let node = self.nodes.get(usize::from(entry.node.0));
        self.broken_at(entry.stamp, entry.node, node, &entry.act)
    }

    fn is_in_order(&self, entry: &Entry) -> bool
        ensures { result ≡ is_in_order self.now entry.now }
    {
        entry.stamp < 1 << 62
            && (self.stamp < entry.stamp
                || self.stamp == entry.stamp && entry.node.0 >= self.node.0)
    }

    fn broken_at(
        &self,
        stamp: Stamp,
        here: NodeNo,
        node: Option<&BookNode>,
        act: &Act,
    ) -> Result<Option<u16>, NoMemory>
        ensures { IfOk result (λ clause. clause ≡ broken_at self.now stamp here.0 (option_copied node.entry) act.now) }
    {
        match node {
            Some(node) => self.broken_node(stamp, here, node, act),
            None => Ok(Some(NODE_IS_UP)),
        }
    }

    fn broken_node(
        &self,
        stamp: Stamp,
        here: NodeNo,
        node: &BookNode,
        act: &Act,
    ) -> Result<Option<u16>, NoMemory>
        ensures { IfOk result (λ clause. clause ≡ broken_node self.now stamp here.0 node.now act.now) }
    {
        match act {
            Act::Restart { inc, pend, done } => {
                if node.is_up() {
                    return Ok(Some(NODE_IS_UP));
                }
                self.broken_restart(here, node, *inc, pend.as_slice(), done.as_slice())
            }
            _ if node.is_up() => self.broken_act(stamp, here, node, act),
            _ => Ok(Some(NODE_IS_UP)),
        }
    }

    fn broken_act(
        &self,
        stamp: Stamp,
        here: NodeNo,
        node: &BookNode,
        act: &Act,
    ) -> Result<Option<u16>, NoMemory>
        ensures { IfOk result (λ clause. clause ≡ broken_act self.now stamp here.0 node.now act.now) }
    {
        match act {
            Act::Begin { tid, label, .. } => {
                Ok(broken_begin(here, node, &self.labels, *tid, label))
            }
            Act::Issue {
                tid,
                issuer,
                member,
                number,
                op,
            } => {
                let issue = Issue {
                    issuer: *issuer,
                    member: *member,
                    number: *number,
                    op,
                };
                let nodes = self.nodes.len();
                let tx = self.transaction(*tid);
                broken_issue(self.alloc, here, node, nodes, *tid, tx, &issue)
            }
            Act::Serve {
                tid,
                member,
                from,
                number,
                reply,
            } => {
                let serve = Serve {
                    member: *member,
                    from: *from,
                    number: *number,
                    reply,
                };
                let tx = self.transaction(*tid);
                broken_serve(here, node, &self.transactions, *tid, tx, &serve)
            }
            Act::Vote {
                tid,
                member,
                vote,
                covers,
            } => {
                let ballot = MemberVote {
                    member: *member,
                    vote,
                    covers: *covers,
                };
                broken_vote(here, node, *tid, self.transaction(*tid), &ballot)
            }
            _ => Ok(self.broken_end(stamp, here, node, act)),
        }
    }

    /// The first clause that an act breaks by which a transaction ends.
    fn broken_end(&self, stamp: Stamp, here: NodeNo, node: &BookNode, act: &Act) -> Option<u16>
        ensures { result ≡ broken_end self.now stamp here.0 node.now act.now }
    {
        match act {
            Act::Ask { tid } => broken_ask(here, *tid, self.transaction(*tid)),
            Act::Counted { tid, peer, up_to } => {
                let nodes = self.nodes.len();
                broken_counted(here, node, nodes, self.transaction(*tid), *peer, *up_to)
            }
            Act::Decide {
                tid,
                outcome,
                cause,
            } => {
                let tx = self.transaction(*tid);
                let nodes = self.nodes.as_slice();
                broken_decide(here, node, nodes, *tid, tx, stamp, *outcome, cause.as_ref())
            }
            Act::Ending { tid, member } => {
                broken_ending(here, node, self.transaction(*tid), *member)
            }
            Act::Learn {
                tid,
                member,
                outcome,
            } => broken_learn(here, node, self.transaction(*tid), *member, *outcome),
            Act::Answer {
                client,
                line,
                answer,
            } => broken_answer(self.owners.get(usize::from(client.0)), *line, answer),
            Act::Loan { tid, client } => {
                broken_loan(here, node, self.transaction(*tid), *client, stamp)
            }
            Act::Yield { tid, client } => {
                broken_yield(here, node, self.transaction(*tid), *client)
            }
            Act::Crash { cause } => broken_crash(*cause),
            Act::Restart { .. } => Some(NODE_IS_UP),
            _ => None,
        }
    }

    /// Takes an entry in, where it is a lawful step. Where it is not, the book is as it was, and the
    /// fault tells the first clause that it breaks. After [`BookFault::NoMemory`] nothing is said of
    /// what the book holds, which may be a part of the entry: drop it. Besides
    /// [`Book::apply_lawful`], nothing else changes a book.
    pub fn apply(&mut self, entry: &Entry) -> Result<(), BookFault>
        ensures lawful { OnOk result (broken self.old entry.now ≡ None) }
        ensures effect { OnOk result (self.new ≡ effect self.old entry.now) }
        ensures unlawful { (clause : ℕ) → result ≡ Err (BookFault.Unlawful clause) → broken self.old entry.now ≡ Some clause }
        ensures broken { (clause : ℕ) → broken self.old entry.now ≡ Some clause → (result ≡ Err (BookFault.Unlawful clause)) ⊎ (result ≡ Err BookFault.NoMemory) }
        ensures unchanged { (clause : ℕ) → result ≡ Err (BookFault.Unlawful clause) → self.new ≡ self.old }
    {
        if let Some(clause) = self.broken(entry)? {
            return Err(BookFault::Unlawful { clause });
        }
        self.apply_lawful(entry)?;
        Ok(())
    }

    /// Takes in an entry that is known to be a lawful step, and does not judge it again: of others,
    /// [`Book::apply`] judges first. The only error is a refusal of memory, for which a counter at
    /// its last value stands too; nothing is then said of what the book holds, which may be a part
    /// of the entry: drop it.
    pub fn apply_lawful(&mut self, entry: &Entry) -> Result<(), NoMemory>
        requires { broken self.old entry.now ≡ None }
        ensures { OnOk result (self.new ≡ effect self.old entry.now) }
    {
        let place = self.place.checked_add(1).ok_or(NoMemory)?;
        self.take_act(entry.stamp, entry.node, &entry.act)?;
        self.stamp = entry.stamp;
        self.node = entry.node;
        self.place = place;
        Ok(())
    }
}
