//! What a transaction becomes by votes, loans, answers and outcomes.
ghost use Rattle.std.specs.Prelude.{◌≡◌, OnOk, OnErr};
ghost use Rattle.std.specs.BTreeMap.{is_at};
ghost use Rattle.qs_book_machine.specs.Transaction.{changed_value, life_cmp, link_cmp, node_cmp, with_counted, with_reached, starts_after, refusals_after, voted_part};

use crate::cells::cell_of;
use crate::part::{ended_part, found_part, learnt_part, made_part, voted_part, yielded_part};
use crate::sending::{heard_by, with_counted, with_reached};
use crate::transaction::Transaction;
use qs_base::{Copied, List, Member, NoMemory, NodeNo, Outcome};
use qs_book_machine::{Life, Link, Part, Peer, Refusal, Sent, Start};
use qs_ops::{Cause, Vote};
use std::collections::{BTreeMap, BTreeSet};

impl Transaction {
    ghost use Rattle.qs_book_machine.specs.Transaction.{asked_at, decided_at, counted, heard, voted, lent, given_back, learnt, with_learnt, ended, found_at};

    /// The owner asks for commit, at that place in the history.
    pub fn ask(&mut self, place: u64)
        ensures { self.new ≡ asked_at place self.old }
    {
        self.asked = Some(place);
    }

    /// Its outcome is decided, at that place in the history.
    pub fn decide(&mut self, place: u64, outcome: Outcome, cause: Option<Cause>)
        ensures { self.new ≡ decided_at place outcome cause self.old }
    {
        self.cell = cell_of(outcome);
        self.cause = cause;
        self.decided = Some(place);
    }

    /// The sender of that link, in incarnation `inc`, counts the peer's answer up to that number; the
    /// peer is in incarnation `peer_inc`.
    pub fn count(&mut self, link: Link, inc: u64, up_to: u32, peer_inc: u64)
        ensures { self.new ≡ counted link inc up_to peer_inc self.old }
    {
        let reached = self.reached(link.to, peer_inc);
        count_on(&mut self.sent, link, inc, up_to);
        reach(&mut self.peers, link.to, reached);
    }

    /// A client that sent a request to the node, which is in incarnation `inc`, got an answer.
    pub fn hear(&mut self, node: NodeNo, inc: u64)
        ensures { self.new ≡ heard node inc self.old }
    {
        if let Some(peer) = self.peers.get_mut(&node) {
            *peer = heard_by(*peer, inc);
        }
    }

    /// The member votes. After a refusal, which comes for want of memory alone, all is as it was.
    pub fn vote(&mut self, member: Member, inc: u64, vote: &Vote) -> Result<(), NoMemory>
        ensures ok { OnOk result (self.new ≡ voted member inc vote.now self.old) }
        ensures err { OnErr result (self.new ≡ self.old) }
    {
        let life = Life { member, inc };
        let served = self.part(member, inc).served;
        keep_vote(&mut self.starts, &mut self.refusals, life, served, vote)?;
        vote_in(&mut self.parts, life, vote);
        Ok(())
    }

    /// A loan to the client is made. After a refusal, which comes for a count at its end alone, all
    /// is as it was.
    #[tactic(auto, using(std::proofs::lemmas::Map::Steps::set_value_same))]
    pub fn lend(&mut self, client: Member, inc: u64) -> Result<(), NoMemory>
        ensures ok { OnOk result (self.new ≡ lent client inc self.old) }
        ensures err { OnErr result (self.new ≡ self.old) }
    {
        if let Some(part) = self.parts.get_mut(&Life {
            member: client,
            inc,
        }) {
            *part = made_part(*part)?;
        }
        Ok(())
    }

    /// The client gives the earliest of its loans that stand back. After a refusal, which comes for a
    /// count at its end alone, all is as it was.
    #[tactic(auto, using(std::proofs::lemmas::Map::Steps::set_value_same))]
    pub fn give_back(&mut self, client: Member, inc: u64) -> Result<(), NoMemory>
        ensures ok { OnOk result (self.new ≡ given_back client inc self.old) }
        ensures err { OnErr result (self.new ≡ self.old) }
    {
        if let Some(part) = self.parts.get_mut(&Life {
            member: client,
            inc,
        }) {
            *part = yielded_part(*part)?;
        }
        Ok(())
    }

    /// The member learns the outcome. After a refusal, which comes for want of memory alone, all is
    /// as it was.
    pub fn learn(&mut self, member: Member, inc: u64, outcome: Outcome) -> Result<(), NoMemory>
        ensures ok { OnOk result (self.new ≡ learnt member inc outcome self.old) }
        ensures err { OnErr result (self.new ≡ self.old) }
    {
        match outcome {
            Outcome::Commit => self.learn_found(member)?,
            Outcome::Abort => {}
        }
        if let Some(part) = self.parts.get_mut(&Life { member, inc }) {
            *part = learnt_part(*part, outcome);
        }
        Ok(())
    }

    /// The member learnt commit, in whatever incarnation. After a refusal, which comes for want of
    /// memory alone, all is as it was.
    pub fn learn_found(&mut self, member: Member) -> Result<(), NoMemory>
        ensures ok { OnOk result (self.new ≡ with_learnt member self.old) }
        ensures err { OnErr result (self.new ≡ self.old) }
    {
        self.learnt.insert(member)?;
        Ok(())
    }

    /// The member is told that the transaction ends.
    pub fn end(&mut self, member: Member, inc: u64)
        ensures { self.new ≡ ended member inc self.old }
    {
        if let Some(part) = self.parts.get_mut(&Life { member, inc }) {
            *part = ended_part(*part);
        }
    }

    /// A restart into that incarnation found the member's vote with these covers, and so many
    /// changes. After a refusal, which comes for want of memory alone, all is as it was.
    pub fn find(
        &mut self,
        member: Member,
        inc: u64,
        covers: u64,
        changes: u64,
    ) -> Result<(), NoMemory>
        ensures ok { OnOk result (self.new ≡ found_at member inc covers changes self.old) }
        ensures err { OnErr result (self.new ≡ self.old) }
    {
        self.parts
            .insert(Life { member, inc }, found_part(covers, changes))?;
        Ok(())
    }
}

/// Keeps from where counts may begin anew, and a vote against commit. After a refusal both are as
/// they were.
fn keep_vote(
    starts: &mut BTreeSet<Start>,
    refusals: &mut List<Refusal>,
    life: Life,
    served: u64,
    vote: &Vote,
) -> Result<(), NoMemory>
    ensures starts { OnOk result (starts.new.keys ≡ starts_after vote.now life served starts.old.keys) }
    ensures refusals { OnOk result (refusals.new ≡ refusals_after vote.now life.member refusals.old) }
    ensures starts_err { OnErr result (starts.new.keys ≡ starts.old.keys) }
    ensures refusals_err { OnErr result (refusals.new ≡ refusals.old) }
{
    match vote {
        Vote::ReadOnly => {
            starts.insert(Start { life, served })?;
        }
        Vote::Abort { reason } => {
            let (member, reason) = (life.member, reason.copy()?);
            refusals.push(Refusal { member, reason })?;
        }
        Vote::Volatile | Vote::Recoverable => {}
    }
    Ok(())
}

/// What a member did in an incarnation, if anything, stands before its vote.
fn vote_in(parts: &mut BTreeMap<Life, Part>, life: Life, vote: &Vote)
    ensures { parts.new.entries ≡ changed_value (is_at (life_cmp life)) (voted_part vote.now) parts.old.entries }
{
    if let Some(part) = parts.get_mut(&life) {
        *part = voted_part(*part, vote);
    }
}

/// The sender of that link counts the peer's answer up to that number.
fn count_on(sent: &mut BTreeMap<Link, Sent>, link: Link, inc: u64, up_to: u32)
    ensures { sent.new.entries ≡ changed_value (is_at (link_cmp link)) (with_counted inc up_to) sent.old.entries }
{
    if let Some(sent) = sent.get_mut(&link) {
        *sent = with_counted(*sent, inc, up_to);
    }
}

/// A request to the node was seen open in that incarnation of its.
fn reach(peers: &mut BTreeMap<NodeNo, Peer>, node: NodeNo, inc: u64)
    ensures { peers.new.entries ≡ changed_value (is_at (node_cmp node)) (with_reached inc) peers.old.entries }
{
    if let Some(peer) = peers.get_mut(&node) {
        *peer = with_reached(*peer, inc);
    }
}
