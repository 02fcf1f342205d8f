//! A restart: whether its found lists may be, and what it does.
ghost use Rattle.std.specs.Prelude.{◌≡◌, not, cond, true, IfOk, OnOk};
ghost use Rattle.std.specs.List.{list_all};
ghost use Rattle.std.specs.BTreeMap.{is_at};
ghost use Rattle.std.specs.Option.{option_copied};
ghost use Rattle.qs_book_machine.specs.Transaction.{is_empty};
ghost use Rattle.qs_book_machine.specs.Nodes.{is_recoverable, pending_at, voter_cmp};
ghost use Rattle.qs_book_machine.specs.Restart.{member_at, is_on_record, could_vote, is_new_vote, was_applied, is_seen, voter_of, votes_once, may_be_lost, is_committed, is_open_here, is_found_vote, is_kept, is_found_commit, broken_restart};
ghost use Rattle.qs_book_machine.specs.declared.state.OnRecord.{OnRecord};

use super::Book;
use crate::clauses::{
    FOUND_COMMITS_ARE_COMMITS, FOUND_VOTES_ARE_VOTES, INCARNATION_RISES, NO_VOTE_IS_LOST, has_vote,
};
use crate::found::{FoundCommits, FoundVotes};
use crate::node::BookNode;
use qs_base::{Member, NoMemory, NodeNo, ServerNo, Tid};
use qs_book_journal::Found;
use qs_book_machine::{Cell, Voter};
use qs_book_transactions::Transaction;
use qs_ops::Vote;
use qs_ops::servers::{AUDIT, EXTRA, FILES};
use std::alloc::Global;
use std::collections::BTreeSet;

pub fn member_at(here: NodeNo, server: ServerNo) -> Member
    ensures { result ≡ member_at here.0 server.0 }
{
    Member { node: here, server }
}

fn is_on_record(node: &BookNode, found: Found) -> bool
    ensures { result ≡ is_on_record node.now found }
{
    match node.record(found.tid, found.server) {
        Some(record) => record.covers == found.covers,
        None => false,
    }
}

fn is_recoverable(server: ServerNo) -> bool
    ensures { result ≡ is_recoverable server.0 }
{
    server == FILES || server == AUDIT || server == EXTRA
}

fn has_pending(node: &BookNode, found: Found) -> bool
    ensures { result ≡ not (is_empty (pending_at node.now found.tid found.server.0)) }
{
    match node.table(found.server) {
        Some(table) => table.has_changes(found.tid),
        None => false,
    }
}

fn could_vote(here: NodeNo, node: &BookNode, tx: &Transaction, found: Found) -> bool
    ensures { result ≡ could_vote here.0 node.now tx.now found }
{
    let member = member_at(here, found.server);
    let part = tx.part(member, node.inc());
    has_vote(found.server, &Vote::Recoverable)
        && tx.was_in_commit(node.stopped())
        && part.voted < part.served
        && tx.is_covering(member, node.inc(), u64::from(found.covers))
        && (tx.was_crossed(node.stopped(), member) || has_pending(node, found))
}

/// Whether a vote that a restart finds was made in the step that the crash cut off: it is not on
/// record, and the member could have made it then.
pub fn is_new_vote(here: NodeNo, node: &BookNode, tx: Option<&Transaction>, found: Found) -> bool
    ensures { result ≡ is_new_vote here.0 node.now (option_copied tx.entry) found }
{
    match tx {
        Some(tx) => !is_on_record(node, found) && could_vote(here, node, tx, found),
        None => false,
    }
}

fn was_applied(
    here: NodeNo,
    node: &BookNode,
    done: &FoundCommits,
    tx: Option<&Transaction>,
    found: Found,
) -> bool
    ensures { result ≡ was_applied here.0 node.now done.now (option_copied tx.entry) found }
{
    match tx {
        Some(tx) => {
            done.has(found.tid)
                && (tx.has_learnt(member_at(here, found.server)) || node.held_commit(found.tid))
        }
        None => false,
    }
}

/// Whether no vote of that member for that transaction was seen; from now on it is.
fn is_first(seen: &mut BTreeSet<Voter>, found: Found) -> Result<bool, NoMemory>
    ensures first { IfOk result (λ first. first ≡ not (is_seen seen.old.keys found)) }
    ensures seen { OnOk result ((other : Found) → is_seen seen.new.keys other ≡ cond (is_at (voter_cmp (voter_of found)) (voter_of other)) true (is_seen seen.old.keys other)) }
{
    let voter = Voter {
        tid: found.tid,
        server: found.server,
    };
    Ok(seen.insert(voter)?)
}

/// Whether each member's vote for a transaction is found once.
fn votes_once(alloc: Global, pend: &[Found]) -> Result<bool, NoMemory>
    ensures { IfOk result (λ once. once ≡ votes_once pend.now) }
{
    let mut seen = BTreeSet::new(alloc);
    for found in pend {
        if !is_first(&mut seen, *found)? {
            return Ok(false);
        }
    }
    Ok(true)
}

fn may_be_lost(here: NodeNo, tid: Tid, tx: Option<&Transaction>) -> bool
    ensures { result ≡ may_be_lost here.0 tid (option_copied tx.entry) }
{
    match tx {
        Some(tx) => tx.cell() == Cell::Abort || tx.cell() == Cell::Open && tid.home == here,
        None => false,
    }
}

fn is_committed(here: NodeNo, tid: Tid, tx: Option<&Transaction>) -> bool
    ensures { result ≡ is_committed here.0 tid (option_copied tx.entry) }
{
    match tx {
        Some(tx) => {
            tx.cell() == Cell::Commit
                || tx.cell() == Cell::Open && tid.home == here && tx.is_unanimous()
        }
        None => false,
    }
}

pub fn is_open_here(here: NodeNo, tid: Tid, tx: Option<&Transaction>) -> bool
    ensures { result ≡ is_open_here here.0 tid (option_copied tx.entry) }
{
    match tx {
        Some(tx) => tid.home == here && tx.cell() == Cell::Open,
        None => false,
    }
}

impl Book {
    fn is_found_vote(
        &self,
        here: NodeNo,
        node: &BookNode,
        done: &FoundCommits,
        found: Found,
    ) -> bool
        ensures { result ≡ is_found_vote here.0 self.now node.now done.now found }
    {
        let tx = self.transaction(found.tid);
        is_recoverable(found.server)
            && (is_on_record(node, found)
                || is_new_vote(here, node, tx, found)
                || was_applied(here, node, done, tx, found))
    }

    fn is_kept(
        &self,
        here: NodeNo,
        pend: &FoundVotes,
        done: &FoundCommits,
        at: Voter,
        covers: u32,
    ) -> bool
        ensures { (kept : OnRecord) → kept.covers ≡ covers → result ≡ is_kept here.0 self.now pend.now done.now (at, kept) }
    {
        may_be_lost(here, at.tid, self.transaction(at.tid))
            || done.has(at.tid)
            || pend.has(at, covers)
    }

    fn is_found_commit(&self, here: NodeNo, node: &BookNode, tid: Tid) -> bool
        ensures { result ≡ is_found_commit here.0 self.now node.now tid }
    {
        node.held_commit(tid) || is_committed(here, tid, self.transaction(tid))
    }

    fn are_found_votes(
        &self,
        here: NodeNo,
        node: &BookNode,
        pend: &[Found],
        done: &FoundCommits,
    ) -> bool
        ensures { result ≡ list_all (is_found_vote here.0 self.now node.now done.now) pend.now }
    {
        pend.iter()
            .all(|found| self.is_found_vote(here, node, done, *found))
    }

    fn are_kept(
        &self,
        here: NodeNo,
        node: &BookNode,
        pend: &FoundVotes,
        done: &FoundCommits,
    ) -> bool
        ensures { result ≡ list_all (is_kept here.0 self.now pend.now done.now) node.now.records }
    {
        node.records().iter().all(|(at, record)| self.is_kept(here, pend, done, *at, record.covers))
    }

    fn are_found_commits(&self, here: NodeNo, node: &BookNode, done: &[Tid]) -> bool
        ensures { result ≡ list_all (is_found_commit here.0 self.now node.now) done.now }
    {
        done.iter()
            .all(|tid| self.is_found_commit(here, node, *tid))
    }

    /// The first clause that a restart at `here` breaks.
    pub(crate) fn broken_restart(
        &self,
        here: NodeNo,
        node: &BookNode,
        inc: u64,
        pend: &[Found],
        done: &[Tid],
    ) -> Result<Option<u16>, NoMemory>
        ensures { IfOk result (λ clause. clause ≡ broken_restart here.0 self.now node.now inc pend.now done.now) }
    {
        if inc <= node.inc() {
            return Ok(Some(INCARNATION_RISES));
        }
        let commits = FoundCommits::new(self.alloc, done)?;
        if !self.are_found_votes(here, node, pend, &commits) || !votes_once(self.alloc, pend)? {
            return Ok(Some(FOUND_VOTES_ARE_VOTES));
        }
        let votes = FoundVotes::new(self.alloc, pend)?;
        let are_kept = self.are_kept(here, node, &votes, &commits);
        drop(votes);
        drop(commits);
        if !are_kept {
            return Ok(Some(NO_VOTE_IS_LOST));
        }
        if !self.are_found_commits(here, node, done) {
            return Ok(Some(FOUND_COMMITS_ARE_COMMITS));
        }
        Ok(None)
    }
}
