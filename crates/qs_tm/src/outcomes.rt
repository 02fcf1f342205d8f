//! How a transaction is decided, told, learnt and acknowledged, and what of it is taken up from the log.
ghost use Rattle.std.specs.Prelude.{◌≡◌, IfOk};
ghost use Rattle.qs_base.specs.declared.identifiers.Outcome.TheVariants.{Commit, Abort};
ghost use Rattle.qs_tm.specs.Outcomes.{drawn_in, told_with_own, tell_of, named_by, writes_commit, record_of, decided, settled, in_log, logged, acknowledged, is_all_told, new_names, take_names, is_abort, is_told_again, aborted_participant, voted_before, committed_before};

use crate::members::{Ballot, Cast, MemberPart};
use crate::participant::{InLog, Participant};
use qs_base::{List, NoMemory, NodeNo, Outcome, ServerNo, Tid};
use qs_engage::Nodes;
use qs_record::Record;
use std::alloc::Global;

impl Participant {
    // ---- who is to be told

    /// The nodes that this one drew in: those that a request was sent to, and those of the told set.
    pub fn drawn_in(&self) -> Nodes
        ensures { result ≡ drawn_in self.now }
    {
        self.engage.sent_to().union(&self.told)
    }

    /// The told set that goes with this node's answer to its superior: the node itself is in it where
    /// it is to be told.
    pub fn told_with_own(&self, me: NodeNo) -> Nodes
        ensures { result ≡ told_with_own me self.now }
    {
        let mut told = self.told;
        told.put_if(self.involved, me);
        told
    }

    /// The nodes that the home tells the outcome: on abort all whom it drew in.
    pub fn tell_of(&self, outcome: Outcome) -> Nodes
        ensures { result ≡ tell_of outcome self.now }
    {
        match outcome {
            Outcome::Commit => self.told,
            Outcome::Abort => self.drawn_in(),
        }
    }

    /// The nodes that a Told on abort names: all whom this one drew in, the home left out.
    pub fn named_by(&self, home: NodeNo) -> Nodes
        ensures { result ≡ named_by home self.now }
    {
        let mut nodes = self.drawn_in();
        nodes.remove(home);
        nodes
    }

    // ---- the decision

    /// Whether the home writes a Commit: its log has a Prepare of it, or a node is to be told.
    pub fn writes_commit(&self) -> bool
        ensures { result ≡ writes_commit self.now }
    {
        self.log.prepared || !self.told.is_empty()
    }

    /// The record of the decision; `None` where there is none to write.
    pub fn record_of(
        &self,
        alloc: Global,
        tid: Tid,
        outcome: Outcome,
    ) -> Result<Option<Record>, NoMemory>
        ensures { IfOk result (λ rec. rec ≡ record_of tid outcome self.now) }
    {
        match outcome {
            Outcome::Commit => self.commit_record(alloc, tid),
            Outcome::Abort => Ok(self.abort_record(tid)),
        }
    }

    fn commit_record(&self, alloc: Global, tid: Tid) -> Result<Option<Record>, NoMemory>
        ensures { IfOk result (λ rec. rec ≡ record_of tid Commit self.now) }
    {
        if !self.writes_commit() {
            return Ok(None);
        }
        let told = self.told.listed(alloc)?;
        Ok(Some(Record::Commit { tid, told }))
    }

    fn abort_record(&self, tid: Tid) -> Option<Record>
        ensures { result ≡ record_of tid Abort self.now }
    {
        if self.log.prepared {
            Some(Record::Aborted { tid })
        } else {
            None
        }
    }

    /// The home decides.
    pub fn decide(&mut self, outcome: Outcome)
        ensures { self.new ≡ decided outcome self.old }
    {
        self.tell = self.tell_of(outcome);
        self.outcome = Some(outcome);
    }

    /// A server learnt how the transaction ends.
    pub fn settled(&mut self, server: ServerNo)
        ensures { self.new ≡ settled server self.old }
    {
        let member = self.member(server);
        self.put_member(
            server,
            MemberPart {
                fresh: false,
                ..member
            },
        );
    }

    /// A record of it is appended to the log.
    pub fn logged(&mut self, rec: &Record)
        ensures { self.new ≡ logged rec.now self.old }
    {
        self.log = in_log(rec, self.log);
    }

    // ---- acknowledging, at the home

    /// Whether all that were to be told a commit took it in.
    pub fn is_all_told(&self) -> bool
        ensures { result ≡ is_all_told self.now }
    {
        self.log.listed && self.acknowledged.has_all(&self.tell)
    }

    /// That node took the outcome in; whether all that were to be told a commit did.
    pub fn acknowledge(&mut self, peer: NodeNo) -> bool
        ensures all { result ≡ is_all_told (acknowledged peer self.old) }
        ensures state { self.new ≡ acknowledged peer self.old }
    {
        self.acknowledged.put(peer);
        self.is_all_told()
    }

    /// The nodes of a list that were not told, the home left out.
    pub fn new_names(&self, home: NodeNo, further: &List<NodeNo>) -> Nodes
        ensures { result ≡ new_names home further.now self.now }
    {
        let mut named = Nodes::NONE;
        named.join(further);
        let mut names = named.without(&self.tell);
        names.remove(home);
        names
    }

    /// These are told too: which of them were not told before.
    pub fn take_names(&mut self, home: NodeNo, further: &List<NodeNo>) -> Nodes
        ensures names { result ≡ new_names home further.now self.old }
        ensures state { self.new ≡ take_names home further.now self.old }
    {
        let names = self.new_names(home, further);
        self.tell = self.tell.union(&names);
        names
    }

    /// Whether a node that restarted is told again: a commit where it did not take it in, an abort in
    /// any case.
    pub fn is_told_again(&self, peer: NodeNo) -> bool
        ensures { result ≡ is_told_again peer self.now }
    {
        (self.outcome.is_some() && self.tell.contains(peer))
            && (self.is_aborted() || !self.acknowledged.contains(peer))
    }

    /// Whether the outcome is known here, and is abort.
    pub fn is_aborted(&self) -> bool
        ensures { result ≡ is_abort self.now.outcome }
    {
        is_abort(self.outcome)
    }

    // ---- what stands without having run

    /// One that is kept as aborted. It takes no memory.
    pub fn aborted(alloc: Global, home: bool) -> Participant
        ensures { result ≡ aborted_participant home }
    {
        Participant {
            outcome: Some(Outcome::Abort),
            ..Participant::new(alloc, home)
        }
    }

    /// A Prepare in the log is taken as its vote; at the home it means abort, since there is no Commit.
    pub fn voted_before(&mut self, home: bool, server: ServerNo, covers: u32)
        ensures { self.new ≡ voted_before home server covers self.old }
    {
        self.put_member(
            server,
            MemberPart {
                served: covers,
                fresh: true,
                vote: Some(Cast {
                    ballot: Ballot::Recoverable,
                    covers,
                }),
            },
        );
        self.involved = true;
        if home {
            self.outcome = Some(Outcome::Abort);
        }
        self.log = InLog {
            unended: true,
            prepared: true,
            ..self.log
        };
    }

    /// A Commit in the log whose list is still to be told. It takes no memory.
    pub fn committed_before(alloc: Global, home: bool, told: &List<NodeNo>) -> Participant
        ensures { result ≡ committed_before home told.now }
    {
        let mut tell = Nodes::NONE;
        tell.join(told);
        Participant {
            outcome: Some(Outcome::Commit),
            tell,
            log: InLog {
                unended: true,
                prepared: false,
                listed: true,
            },
            ..Participant::new(alloc, home)
        }
    }
}

fn is_abort(outcome: Option<Outcome>) -> bool
    ensures { result ≡ is_abort outcome }
{
    outcome == Some(Outcome::Abort)
}

fn in_log(rec: &Record, log: InLog) -> InLog
    ensures { result ≡ in_log rec.now log }
{
    match rec {
        Record::Prepare { .. } => InLog {
            unended: true,
            prepared: true,
            ..log
        },
        Record::Commit { told, .. } => InLog {
            unended: !told.is_empty(),
            prepared: false,
            listed: !told.is_empty(),
        },
        Record::Aborted { .. } | Record::End { .. } => InLog::NOTHING,
    }
}
