//! What a restart does: found votes go on record, found commits are applied, what is open is aborted.
ghost use Rattle.std.specs.Prelude.{◌≡◌, ◌++◌, ◌∷◌, [], fold, IfOk, OnOk, slice_get};
ghost use Rattle.std.specs.List.{flat_map, list_any};
ghost use Rattle.std.specs.BTreeMap.{is_at};
ghost use Rattle.qs_base.specs.Order.{tid_cmp};
ghost use Rattle.qs_base.specs.declared.identifiers.Tid.{Tid};
ghost use Rattle.std.specs.Option.{option_copied};
ghost use Rattle.qs_book_machine.specs.Transaction.{found_at, with_learnt};
ghost use Rattle.qs_book_machine.specs.Book.{changed_at, find_transaction, with_node, with_transaction, decide, crossed_in, pending_in, inc_at};
ghost use Rattle.qs_book_machine.specs.Nodes.{changes_of};
ghost use Rattle.qs_book_machine.specs.Restart.{new_vote, vote_as_stopped, count_of, new_votes_at, new_votes, put_new_votes, with_votes, record_at, changes_at, is_among, is_kept_at, has_record, add_commit, commits_found, keep_found, reopened, restarted_node, learn_found, decide_found, commit_found, vote_found, abort_begun, begun_tid, begun_at, up_to, restart_found, restart, member_at};

use super::restarting::{is_new_vote, is_open_here, member_at};
use super::{Book, find, nodes, transactions};
use crate::found::{FoundCommits, FoundVotes, add_tid};
use crate::node::BookNode;
use qs_base::{Copied, List, NoMemory, NodeNo, Outcome, ServerNo, Tid};
use qs_book_journal::Found;
use qs_book_machine::{OnRecord, Reopened, Voter};
use qs_ops::servers::{AUDIT, EXTRA, FILES};
use qs_ops::{Cause, KeptChanges, Op};
use std::collections::BTreeSet;

impl Book {
    /// Adds a vote that was found, where it is a new one.
    fn add_new_vote(
        &self,
        votes: &mut Vec<(Voter, OnRecord)>,
        here: NodeNo,
        node: &BookNode,
        found: &Found,
    ) -> Result<(), NoMemory>
        ensures { OnOk result (votes.new.items ≡ votes.old.items ++ new_vote here.0 self.now node.now found.now) }
    {
        if is_new_vote(here, node, self.transaction(found.tid), *found) {
            let voter = Voter {
                tid: found.tid,
                server: found.server,
            };
            votes.push((voter, self.vote_as_stopped(here, node, found)?))?;
        }
        Ok(())
    }

    /// A vote that was found with what was pending as the node stopped.
    fn vote_as_stopped(
        &self,
        here: NodeNo,
        node: &BookNode,
        found: &Found,
    ) -> Result<OnRecord, NoMemory>
        ensures { IfOk result (λ vote. vote ≡ vote_as_stopped here.0 self.now node.now found.now) }
    {
        let member = member_at(here, found.server);
        Ok(OnRecord {
            changes: node.pending(found.tid, found.server)?,
            covers: found.covers,
            pending: self.pending_in(found.tid, member, node.inc()),
        })
    }

    /// The votes that were found and are new.
    fn new_votes(&self, here: NodeNo, pend: &[Found]) -> Result<Vec<(Voter, OnRecord)>, NoMemory>
        ensures { IfOk result (λ votes. votes.items ≡ new_votes here.0 self.now pend.now) }
    {
        new_votes_at(self, here, self.nodes.get(usize::from(here.0)), pend)
    }

    fn put_votes(&mut self, here: NodeNo, votes: Vec<(Voter, OnRecord)>) -> Result<(), NoMemory>
        ensures { OnOk result (self.new ≡ with_node here.0 (with_votes votes.items) self.old) }
    {
        nodes::put_votes(&mut self.nodes, here, votes)
    }

    /// The votes that were found and are new go on record.
    fn put_new_votes(&mut self, here: NodeNo, pend: &[Found]) -> Result<(), NoMemory>
        ensures { OnOk result (self.new ≡ put_new_votes here.0 pend.now self.old) }
    {
        let votes = self.new_votes(here, pend)?;
        self.put_votes(here, votes)
    }

    /// What the log of a node holds of a transaction at a server.
    fn record_at(&self, here: NodeNo, tid: Tid, server: ServerNo) -> Option<&OnRecord>
        ensures { option_copied result ≡ record_at here.0 self.now tid server.0 }
    {
        self.nodes.get(usize::from(here.0))?.record(tid, server)
    }

    /// How many changes were pending at the vote that the log of a node holds.
    fn count_of(&self, here: NodeNo, tid: Tid, server: ServerNo) -> u64
        ensures { result ≡ count_of (record_at here.0 self.now tid server.0) }
    {
        match self.record_at(here, tid, server) {
            Some(record) => record.pending,
            None => 0,
        }
    }

    /// Adds the changes of a transaction that the log of a node holds at a server.
    fn add_changes(
        &self,
        changes: &mut List<Op>,
        here: NodeNo,
        server: ServerNo,
        tid: &Tid,
    ) -> Result<(), NoMemory>
        ensures { OnOk result (changes.new ≡ changes.old ++ changes_at here.0 self.now server.0 tid.now) }
    {
        match self.record_at(here, *tid, server) {
            Some(record) => append_copies(changes, record.changes.as_slice()),
            None => Ok(()),
        }
    }

    /// A copy of the changes of a transaction that the log of a node holds at a server.
    fn changes_at(&self, here: NodeNo, server: ServerNo, tid: Tid) -> Result<List<Op>, NoMemory>
        ensures { IfOk result (λ changes. changes ≡ changes_at here.0 self.now server.0 tid) }
    {
        match self.record_at(here, tid, server) {
            Some(record) => record.changes.copy(),
            None => Ok(List::new(self.alloc)),
        }
    }

    fn has_record(&self, here: NodeNo, tid: Tid) -> bool
        ensures { result ≡ has_record here.0 self.now tid }
    {
        self.record_at(here, tid, FILES).is_some() || self.record_at(here, tid, AUDIT).is_some()
    }

    /// Adds a transaction whose Commit is found, where something of it is on record and it is new.
    fn add_commit(
        &self,
        tids: &mut List<Tid>,
        set: &mut BTreeSet<Tid>,
        here: NodeNo,
        tid: &Tid,
    ) -> Result<(), NoMemory>
        requires { (other : Tid) → list_any (is_at (tid_cmp other)) set.old.keys ≡ is_among tids.old other }
        ensures tids { OnOk result (tids.new ≡ add_commit here.0 self.now tids.old tid.now) }
        ensures set { OnOk result ((other : Tid) → list_any (is_at (tid_cmp other)) set.new.keys ≡ is_among tids.new other) }
    {
        if self.has_record(here, *tid) && !set.contains(tid) {
            push_tid(tids, set, *tid)?;
        }
        Ok(())
    }

    fn is_kept_at(&self, here: NodeNo, server: ServerNo, done: &FoundCommits, found: &Found) -> bool
        ensures { result ≡ is_kept_at here.0 self.now server.0 done.now found.now }
    {
        found.server == server
            && !(done.has(found.tid) || self.is_crossed(found.tid, member_at(here, server)))
    }

    /// Adds a vote of a server that is pending again.
    fn add_kept(
        &self,
        kept: &mut List<KeptChanges>,
        here: NodeNo,
        server: ServerNo,
        done: &FoundCommits,
        found: &Found,
    ) -> Result<(), NoMemory>
        ensures { OnOk result (kept.new ≡ kept.old ++ keep_found here.0 self.now server.0 done.now found.now) }
    {
        if self.is_kept_at(here, server, done, found) {
            let changes = self.changes_at(here, server, found.tid)?;
            kept.push(KeptChanges {
                tid: found.tid,
                changes,
            })?;
        }
        Ok(())
    }

    /// What files and audit of the node begin with.
    fn reopened(
        &self,
        here: NodeNo,
        inc: u64,
        pend: &[Found],
        done: &FoundCommits,
    ) -> Result<Reopened, NoMemory>
        ensures { IfOk result (λ left. left ≡ reopened here.0 inc pend.now done.now self.now) }
    {
        let commits = commits_found(self, here, done.as_slice())?;
        Ok(Reopened {
            inc,
            files: changes_found(self, here, FILES, commits.as_slice())?,
            files_kept: kept_found(self, here, FILES, pend, done)?,
            audit: changes_found(self, here, AUDIT, commits.as_slice())?,
            audit_kept: kept_found(self, here, AUDIT, pend, done)?,
        })
    }

    /// A member with a vote on record learns commit.
    fn learn_found(&mut self, here: NodeNo, tid: Tid, server: ServerNo) -> Result<(), NoMemory>
        ensures { OnOk result (self.new ≡ learn_found here.0 tid server.0 self.old) }
    {
        if self.record_at(here, tid, server).is_some() {
            let member = member_at(here, server);
            transactions::learn_found(&mut self.transactions, tid, member)?;
        }
        Ok(())
    }

    /// At the home an open cell becomes commit.
    fn decide_found(&mut self, here: NodeNo, tid: Tid) -> Result<(), NoMemory>
        ensures { OnOk result (self.new ≡ decide_found here.0 tid self.old) }
    {
        if is_open_here(here, tid, find(&self.transactions, tid)) {
            self.decide(tid, Outcome::Commit, None)?;
        }
        Ok(())
    }

    /// A Commit was found.
    fn commit_found(&mut self, here: NodeNo, tid: &Tid) -> Result<(), NoMemory>
        ensures { OnOk result (self.new ≡ commit_found here.0 self.old tid.now) }
    {
        self.learn_found(here, *tid, FILES)?;
        self.learn_found(here, *tid, AUDIT)?;
        self.learn_found(here, *tid, EXTRA)?;
        self.decide_found(here, *tid)
    }

    /// A vote was found that is pending again, unless its Commit was found too.
    fn vote_found(
        &mut self,
        here: NodeNo,
        inc: u64,
        done: &FoundCommits,
        found: &Found,
    ) -> Result<(), NoMemory>
        ensures { OnOk result (self.new ≡ vote_found here.0 inc done.now self.old found.now) }
    {
        if done.has(found.tid) {
            return Ok(());
        }
        let changes = self.count_of(here, found.tid, found.server);
        let member = member_at(here, found.server);
        let covers = u64::from(found.covers);
        transactions::find_vote(
            &mut self.transactions,
            found.tid,
            member,
            inc,
            covers,
            changes,
        )
    }

    /// A transaction that was begun in the incarnation that ended, and is open still, is aborted.
    fn abort_begun(&mut self, here: NodeNo, inc: u64, seq: u32) -> Result<(), NoMemory>
        ensures { OnOk result (self.new ≡ abort_begun here.0 inc self.old seq) }
    {
        let tid = Tid {
            home: here,
            inc,
            seq,
        };
        if is_open_here(here, tid, find(&self.transactions, tid)) {
            self.decide(tid, Outcome::Abort, Some(&Cause::Home { inc }))?;
        }
        Ok(())
    }

    /// How many transactions were begun at the node in its incarnation.
    fn begun_at(&self, here: NodeNo) -> u32
        ensures { result ≡ begun_at here.0 self.now }
    {
        match self.nodes.get(usize::from(here.0)) {
            Some(node) => node.begun(),
            None => 0,
        }
    }

    fn restart_node(
        &mut self,
        here: NodeNo,
        left: &Reopened,
        pend: &[Found],
        done: &[Tid],
    ) -> Result<(), NoMemory>
        ensures { OnOk result (self.new ≡ with_node here.0 (restarted_node left.now pend.now done.now) self.old) }
    {
        let votes = FoundVotes::new(self.alloc, pend)?;
        nodes::restart(&mut self.nodes, here, left, &votes, done)
    }

    /// Takes in what was found, where it is known what files and audit of the node begin with. It
    /// owns nothing, as what a function owns is let go at each place where it may fail.
    fn restart_left(
        &mut self,
        here: NodeNo,
        inc: u64,
        pend: &[Found],
        done: &[Tid],
        commits: &FoundCommits,
        left: &Reopened,
    ) -> Result<(), NoMemory>
        requires commits { commits.now ≡ done.now }
        requires left { left.now ≡ reopened here.0 inc pend.now commits.now self.old }
        ensures { OnOk result (self.new ≡ restart_found here.0 inc pend.now done.now self.old) }
    {
        let (old, begun) = (self.inc_at(here), self.begun_at(here));
        commit_all(self, here, done)?;
        vote_all(self, here, inc, pend, commits)?;
        abort_all(self, here, old, begun)?;
        self.restart_node(here, left, pend, done)
    }

    /// Takes in what was found, where each Commit is found by one look-up.
    fn restart_with(
        &mut self,
        here: NodeNo,
        inc: u64,
        pend: &[Found],
        done: &[Tid],
        commits: &FoundCommits,
    ) -> Result<(), NoMemory>
        requires { commits.now ≡ done.now }
        ensures { OnOk result (self.new ≡ restart_found here.0 inc pend.now done.now self.old) }
    {
        let left = self.reopened(here, inc, pend, commits)?;
        let restarted = self.restart_left(here, inc, pend, done, commits, &left);
        drop(left);
        restarted
    }

    fn restart_found(
        &mut self,
        here: NodeNo,
        inc: u64,
        pend: &[Found],
        done: &[Tid],
    ) -> Result<(), NoMemory>
        ensures { OnOk result (self.new ≡ restart_found here.0 inc pend.now done.now self.old) }
    {
        let commits = FoundCommits::new(self.alloc, done)?;
        let restarted = self.restart_with(here, inc, pend, done, &commits);
        drop(commits);
        restarted
    }

    /// The node restarts in that incarnation, with these found lists.
    pub(crate) fn restart(
        &mut self,
        here: NodeNo,
        inc: u64,
        pend: &[Found],
        done: &[Tid],
    ) -> Result<(), NoMemory>
        ensures { OnOk result (self.new ≡ restart here.0 inc pend.now done.now self.old) }
    {
        self.put_new_votes(here, pend)?;
        self.restart_found(here, inc, pend, done)
    }
}

fn new_votes_at(
    book: &Book,
    here: NodeNo,
    node: Option<&BookNode>,
    pend: &[Found],
) -> Result<Vec<(Voter, OnRecord)>, NoMemory>
    ensures { IfOk result (λ votes. votes.items ≡ new_votes_at here.0 book.now (option_copied node.entry) pend.now) }
{
    match node {
        Some(node) => new_votes_of(book, here, node, pend),
        None => Ok(Vec::new(book.alloc)),
    }
}

fn new_votes_of(
    book: &Book,
    here: NodeNo,
    node: &BookNode,
    pend: &[Found],
) -> Result<Vec<(Voter, OnRecord)>, NoMemory>
    ensures { IfOk result (λ votes. votes.items ≡ flat_map (new_vote here.0 book.now node.now) pend.now) }
{
    let mut votes = Vec::new(book.alloc);
    for found in pend {
        book.add_new_vote(&mut votes, here, node, found)?;
    }
    Ok(votes)
}

fn append_copies(changes: &mut List<Op>, more: &[Op]) -> Result<(), NoMemory>
    ensures { OnOk result (changes.new ≡ changes.old ++ more.now) }
{
    for op in more {
        changes.push(op.copy()?)?;
    }
    Ok(())
}

/// The transactions with something on record whose Commits are found, each once, in their order.
fn commits_found(book: &Book, here: NodeNo, done: &[Tid]) -> Result<List<Tid>, NoMemory>
    ensures { IfOk result (λ tids. tids ≡ commits_found here.0 book.now done.now) }
{
    let mut tids = List::new(book.alloc);
    let mut set = BTreeSet::new(book.alloc);
    for tid in done {
        book.add_commit(&mut tids, &mut set, here, tid)?;
    }
    Ok(tids)
}

/// One more transaction, in the list and in the set of those that it has.
fn push_tid(tids: &mut List<Tid>, set: &mut BTreeSet<Tid>, tid: Tid) -> Result<(), NoMemory>
    requires { (other : Tid) → list_any (is_at (tid_cmp other)) set.old.keys ≡ is_among tids.old other }
    ensures tids { OnOk result (tids.new ≡ tids.old ++ tid ∷ []) }
    ensures set { OnOk result ((other : Tid) → list_any (is_at (tid_cmp other)) set.new.keys ≡ is_among tids.new other) }
{
    add_tid(set, tid)?;
    tids.push(tid)?;
    Ok(())
}

/// The changes at a server of these transactions, in their order.
fn changes_found(
    book: &Book,
    here: NodeNo,
    server: ServerNo,
    done: &[Tid],
) -> Result<List<Op>, NoMemory>
    ensures { IfOk result (λ changes. changes ≡ flat_map (changes_at here.0 book.now server.0) done.now) }
{
    let mut changes = List::new(book.alloc);
    for tid in done {
        book.add_changes(&mut changes, here, server, tid)?;
    }
    Ok(changes)
}

/// The votes at a server that are pending again.
fn kept_found(
    book: &Book,
    here: NodeNo,
    server: ServerNo,
    pend: &[Found],
    done: &FoundCommits,
) -> Result<List<KeptChanges>, NoMemory>
    ensures { IfOk result (λ kept. kept ≡ flat_map (keep_found here.0 book.now server.0 done.now) pend.now) }
{
    let mut kept = List::new(book.alloc);
    for found in pend {
        book.add_kept(&mut kept, here, server, done, found)?;
    }
    Ok(kept)
}

fn commit_all(book: &mut Book, here: NodeNo, done: &[Tid]) -> Result<(), NoMemory>
    ensures { OnOk result (book.new ≡ fold (commit_found here.0) book.old done.now) }
{
    for tid in done {
        book.commit_found(here, tid)?;
    }
    Ok(())
}

fn vote_all(
    book: &mut Book,
    here: NodeNo,
    inc: u64,
    pend: &[Found],
    done: &FoundCommits,
) -> Result<(), NoMemory>
    ensures { OnOk result (book.new ≡ fold (vote_found here.0 inc done.now) book.old pend.now) }
{
    for found in pend {
        book.vote_found(here, inc, done, found)?;
    }
    Ok(())
}

fn abort_all(book: &mut Book, here: NodeNo, inc: u64, begun: u32) -> Result<(), NoMemory>
    ensures { OnOk result (book.new ≡ fold (abort_begun here.0 inc) book.old (up_to begun)) }
{
    for seq in 0..begun {
        book.abort_begun(here, inc, seq + 1)?;
    }
    Ok(())
}
