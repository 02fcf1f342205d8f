//! What the machine keeps of one transaction, and what it tells.
ghost use Rattle.std.specs.Prelude.{◌≡◌, is_some};
ghost use Rattle.std.specs.Option.{option_copied};

mod changes;
mod judging;
mod requesting;

use crate::part::NO_PART;
use crate::requests::Requests;
use qs_base::{Bytes, ClientNo, List, Member, NodeNo};
use qs_book_machine::{
    Cell, Life, Link, Noted, Part, Peer, Refusal, Request, RequestNo, Sent, Start,
};
use qs_ops::Cause;
use std::alloc::Global;
use std::collections::{BTreeMap, BTreeSet};
use std::marker::Model;

/// What the machine keeps of one transaction.
#[derive(Drop)]
pub struct Transaction {
    label: Option<Bytes>,
    owner: Option<ClientNo>,
    begun_at: u64,
    cell: Cell,
    cause: Option<Cause>,
    asked: Option<u64>,
    decided: Option<u64>,
    requests: BTreeMap<RequestNo, Requests>,
    sent: BTreeMap<Link, Sent>,
    peers: BTreeMap<NodeNo, Peer>,
    noted: BTreeSet<Noted>,
    parts: BTreeMap<Life, Part>,
    starts: BTreeSet<Start>,
    refusals: List<Refusal>,
    crossed: BTreeMap<Member, u64>,
    learnt: BTreeSet<Member>,
    alloc: Global,
}

impl Model for Transaction {
    ghost use Rattle.qs_book_machine.specs.Transaction.{TransactionValue};

    ghost Value = { TransactionValue };

    ghost view = { λ t. record {
      label = t.label;
      owner = t.owner;
      begun_at = t.begun_at;
      cell = t.cell;
      cause = t.cause;
      asked = t.asked;
      decided = t.decided;
      requests = t.requests.entries;
      sent = t.sent.entries;
      peers = t.peers.entries;
      noted = t.noted.keys;
      parts = t.parts.entries;
      starts = t.starts.keys;
      refusals = t.refusals;
      crossed = t.crossed.entries;
      learnt = t.learnt.keys;
    } };
}

impl Transaction {
    ghost use Rattle.qs_book_machine.specs.Transaction.{at_first, begun, opened_as, part_of, sent_on, sent_in, next_number, requests_at, standing_request, has_note, is_crossed, has_learnt};

    /// A transaction that its owner begins under this label, at the home's tick of that number. It
    /// takes no memory.
    pub fn begun(alloc: Global, label: Bytes, owner: ClientNo, ticks: u64) -> Transaction
        ensures { result ≡ begun label owner ticks }
    {
        Transaction {
            label: Some(label),
            owner: Some(owner),
            begun_at: ticks,
            ..Transaction::at_first(alloc)
        }
    }

    /// A transaction that stood at the opening with this cell, and with this cause where it was
    /// aborted. It takes no memory.
    pub fn opened(alloc: Global, cell: Cell, cause: Option<Cause>) -> Transaction
        ensures { result ≡ opened_as cell cause }
    {
        Transaction {
            cell,
            cause,
            ..Transaction::at_first(alloc)
        }
    }

    fn at_first(alloc: Global) -> Transaction
        ensures { result ≡ at_first }
    {
        Transaction {
            label: None,
            owner: None,
            begun_at: 0,
            cell: Cell::Open,
            cause: None,
            asked: None,
            decided: None,
            requests: BTreeMap::new(alloc),
            sent: BTreeMap::new(alloc),
            peers: BTreeMap::new(alloc),
            noted: BTreeSet::new(alloc),
            parts: BTreeMap::new(alloc),
            starts: BTreeSet::new(alloc),
            refusals: List::new(alloc),
            crossed: BTreeMap::new(alloc),
            learnt: BTreeSet::new(alloc),
            alloc,
        }
    }

    /// The label of its begin; `None` where it stood at the opening.
    pub fn label(&self) -> Option<&Bytes>
        ensures { option_copied result ≡ self.now.label }
    {
        self.label.as_ref()
    }

    /// The client that began it; `None` where it stood at the opening.
    pub fn owner(&self) -> Option<ClientNo>
        ensures { result ≡ self.now.owner }
    {
        self.owner
    }

    /// How many ticks its home had made in its incarnation when it began.
    pub fn begun_at(&self) -> u64
        ensures { result ≡ self.now.begun_at }
    {
        self.begun_at
    }

    /// Its outcome.
    pub fn cell(&self) -> Cell
        ensures { result ≡ self.now.cell }
    {
        self.cell
    }

    /// Why it was aborted; `None` where it was not.
    pub fn cause(&self) -> Option<&Cause>
        ensures { option_copied result ≡ self.now.cause }
    {
        self.cause.as_ref()
    }

    /// Whether commit was asked for.
    pub fn is_asked(&self) -> bool
        ensures { result ≡ is_some self.now.asked }
    {
        self.asked.is_some()
    }

    /// What that member did in that incarnation of its node.
    pub fn part(&self, member: Member, inc: u64) -> Part
        ensures { result ≡ part_of self.now member inc }
    {
        self.parts
            .get(&Life { member, inc })
            .copied()
            .unwrap_or(NO_PART)
    }

    /// How many requests went over that link in that incarnation of its sender.
    pub fn sent_in(&self, link: Link, inc: u64) -> u32
        ensures { result ≡ sent_in inc (sent_on self.now link) }
    {
        match self.sent.get(&link) {
            Some(sent) if sent.inc == inc => sent.count,
            _ => 0,
        }
    }

    /// The number of the next request on that link in that incarnation of its sender, from 1.
    pub fn next_number(&self, link: Link, inc: u64) -> u64
        ensures { result ≡ next_number self.now link inc }
    {
        u64::from(self.sent_in(link, inc)) + 1
    }

    /// The requests of that number on that link, in the order of their issues.
    pub fn requests_at(&self, at: RequestNo) -> &[Request]
        ensures { result.now ≡ requests_at self.now at }
    {
        match self.requests.get(&at) {
            Some(requests) => requests.as_slice(),
            None => &[],
        }
    }

    /// The earliest request of that number to that member that was not served.
    pub fn standing_request(&self, at: RequestNo, member: Member) -> Option<&Request>
        ensures { option_copied result ≡ standing_request self.now at member }
    {
        self.requests.get(&at)?.standing(member)
    }

    /// Whether files issued that audit note and it was served.
    pub fn has_note(&self, note: &Noted) -> bool
        ensures { result ≡ has_note self.now note.now }
    {
        self.noted.contains(note)
    }

    /// Whether a request to that member had the number of an earlier one that was not served.
    pub fn is_crossed(&self, member: Member) -> bool
        ensures { result ≡ is_crossed self.now member }
    {
        self.crossed.contains_key(&member)
    }

    /// Whether that member learnt commit, in whatever incarnation.
    pub fn has_learnt(&self, member: Member) -> bool
        ensures { result ≡ has_learnt self.now member }
    {
        self.learnt.contains(&member)
    }
}
