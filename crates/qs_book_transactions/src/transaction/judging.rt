//! What a transaction tells of its votes, its loans, its restarts and its decision.
ghost use Rattle.std.specs.Prelude.{◌≡◌, is_some};
ghost use Rattle.std.specs.List.{list_all, list_any};
ghost use Rattle.qs_book_machine.specs.Transaction.{is_empty, is_open_link, is_refusal, is_start, is_before, agrees, peer_of};

use crate::part::agrees_in;
use crate::sending::NO_PEER;
use crate::transaction::Transaction;
use qs_base::{List, Member, NodeNo, ServerNo};
use qs_book_machine::{Cell, Life, Link, Part, Peer, Refusal, Sent, Start};
use qs_ops::{Reason, class_of};
use std::collections::BTreeSet;

impl Transaction {
    ghost use Rattle.qs_book_machine.specs.Transaction.{is_covering, is_unanimous, has_refusal, is_gone, has_loan, is_loan_due, learnt_abort, was_committed, was_in_commit, was_crossed, all_served, is_open_to, reached, part_of};

    /// Whether so many covers count what the member served since the restart, or since one of its
    /// read-only votes.
    pub fn is_covering(&self, member: Member, inc: u64, covers: u64) -> bool
        ensures { result ≡ is_covering self.now member inc covers }
    {
        let part = self.part(member, inc);
        part.served.checked_add(part.found) == Some(covers)
            || has_start(&self.starts, member, inc, part.served, covers)
    }

    /// Whether all that has to agree to a commit did: it was asked for, every request was served,
    /// every member agrees in every incarnation, no vote was ever against it, and no member is
    /// crossed.
    pub fn is_unanimous(&self) -> bool
        ensures { result ≡ is_unanimous self.now }
    {
        self.asked.is_some()
            && self.all_served()
            && self.all_agree()
            && has_none(&self.refusals)
            && self.crossed.is_empty()
    }

    fn all_served(&self) -> bool
        ensures { result ≡ all_served self.now }
    {
        self.requests
            .iter()
            .all(|(_, requests)| requests.all_served())
    }

    fn all_agree(&self) -> bool
        ensures { result ≡ list_all agrees self.now.parts }
    {
        self.parts.iter().all(|(life, part)| agrees(life, part))
    }

    /// Whether that member made a vote against commit with that reason.
    pub fn has_refusal(&self, member: Member, reason: &Reason) -> bool
        ensures { result ≡ has_refusal self.now member reason.now }
    {
        self.refusals
            .as_slice()
            .iter()
            .any(|refusal| is_refusal(member, reason, refusal))
    }

    /// Whether a request to the node, which is in incarnation `inc`, was open when it restarted
    /// from incarnation `gone` or a later one.
    pub fn is_gone(&self, node: NodeNo, inc: u64, gone: u64) -> bool
        ensures { result ≡ is_gone self.now node inc gone }
    {
        gone < self.reached(node, inc)
    }

    pub(super) fn reached(&self, node: NodeNo, inc: u64) -> u64
        ensures { result ≡ reached self.now node inc }
    {
        if self.is_open_to(node) {
            inc
        } else {
            self.peer(node).reached
        }
    }

    fn is_open_to(&self, node: NodeNo) -> bool
        ensures { result ≡ is_open_to self.now node }
    {
        0 < self.peer(node).waiting || self.has_open_link(node)
    }

    fn has_open_link(&self, node: NodeNo) -> bool
        ensures { result ≡ list_any (is_open_link node) self.now.sent }
    {
        self.sent
            .iter()
            .any(|(link, sent)| is_open_link(node, link, sent))
    }

    pub(super) fn peer(&self, node: NodeNo) -> Peer
        ensures { result ≡ peer_of self.now node }
    {
        self.peers.get(&node).copied().unwrap_or(NO_PEER)
    }

    /// Whether a loan to the client was made at its node in that incarnation and is not yielded.
    pub fn has_loan(&self, client: Member, inc: u64) -> bool
        ensures { result ≡ has_loan self.now client inc }
    {
        let part = self.part(client, inc);
        part.yielded < part.made
    }

    /// Whether the client was asked to take a loan in the step of this stamp and that loan is not
    /// made.
    pub fn is_loan_due(&self, client: Member, inc: u64, stamp: u64) -> bool
        ensures { result ≡ is_loan_due self.now client inc stamp }
    {
        let part = self.part(client, inc);
        part.step == stamp && 0 < part.unmade
    }

    /// Whether a member at that node learnt abort in that incarnation.
    pub fn learnt_abort(&self, node: NodeNo, inc: u64) -> bool
        ensures { result ≡ learnt_abort self.now node inc }
    {
        [0, 1, 2, 4, 5, 6]
            .iter()
            .any(|server| self.has_aborted(node, *server, inc))
    }

    fn has_aborted(&self, node: NodeNo, server: u8, inc: u64) -> bool
        ensures { result ≡ (part_of self.now (record { node = node; server = record { 0 = server } }) inc).aborted }
    {
        let member = Member {
            node,
            server: ServerNo(server),
        };
        self.part(member, inc).aborted
    }

    /// Whether commit was asked for before that place in the history and not decided before it.
    pub fn was_in_commit(&self, place: u64) -> bool
        ensures { result ≡ was_in_commit place self.now }
    {
        is_before(place, self.asked) && !self.was_committed(place)
    }

    /// Whether the transaction was crossed at that member before that place in the history.
    pub fn was_crossed(&self, place: u64, member: Member) -> bool
        ensures { result ≡ was_crossed place self.now member }
    {
        is_before(place, self.crossed.get(&member).copied())
    }

    fn was_committed(&self, place: u64) -> bool
        ensures { result ≡ was_committed place self.now }
    {
        self.cell == Cell::Commit && (self.decided.is_none() || is_before(place, self.decided))
    }
}

/// Whether a vote with these covers counts what its member served since a read-only vote of its. The
/// set is in the order of members, incarnations and counts, so one look-up is enough.
fn has_start(starts: &BTreeSet<Start>, member: Member, inc: u64, served: u64, covers: u64) -> bool
    ensures { result ≡ list_any (is_start member inc served covers) starts.now.keys }
{
    match served.checked_sub(covers) {
        Some(before) => starts.contains(&Start {
            life: Life { member, inc },
            served: before,
        }),
        None => false,
    }
}

/// Whether what a member did in an incarnation agrees to a commit.
fn agrees(life: &Life, part: &Part) -> bool
    ensures { result ≡ agrees (life.now, part.now) }
{
    agrees_in(part, class_of(life.member.server))
}

/// Whether there is no refusal.
fn has_none(refusals: &List<Refusal>) -> bool
    ensures { result ≡ is_empty refusals.now }
{
    refusals.get(0).is_none()
}

/// Whether it is a vote of that member against commit with that reason.
fn is_refusal(member: Member, reason: &Reason, refusal: &Refusal) -> bool
    ensures { result ≡ is_refusal member reason.now refusal.now }
{
    refusal.member == member && refusal.reason.is(reason)
}

/// Whether a request to the node is open on that link: one above the count, or one that files issued.
fn is_open_link(node: NodeNo, link: &Link, sent: &Sent) -> bool
    ensures { result ≡ is_open_link node (link.now, sent.now) }
{
    link.to == node && (sent.lost || sent.by_files || sent.counted < sent.count)
}

/// Whether it came to pass at an earlier place in the history.
fn is_before(place: u64, at: Option<u64>) -> bool
    ensures { result ≡ is_before place at }
{
    match at {
        Some(at) => at < place,
        None => false,
    }
}
