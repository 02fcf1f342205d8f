//! The manager of transactions of a node.
ghost use Rattle.std.specs.Prelude.{◌≡◌, ℕ, ◌≤◌, [], None, Some, ◌↔◌, OnOk, OnErr, IfOk, IsErrOf};
ghost use Rattle.std.specs.Option.{option_copied};
ghost use Rattle.qs_tm.specs.declared.manager.BeginFault.TheVariants.{LogFull, Last};
ghost use Rattle.qs_tm.specs.Outcomes.{voted_before};
ghost use Rattle.qs_tm.specs.Manager.{part_of, with_part, begin, begin_fault, next_tid, knows, meet, keep_abort, forget, tick, sent, sent_as, issued, drop_waiting, note_served, requested, engaged_at, served, served_as, voted, ask, refused, add_cause, causes_at, take_causes, counted, is_ready, released, released_to, add_told, told_at, decide, decision, took_outcome, settled, logged, acknowledged, all_acknowledged, take_names, new_names, add_tell, restarted, standing, standing_of, need_past, need_of, take_up, take_up_vote, take_up_commit, is_one, put_tid, tids_of, undecided, due, aged, concerned, concerns, has_undecided, has_learners, is_open};

use crate::known::Known;
use crate::participant::{Outstanding, Participant};
use qs_base::{ClientNo, List, Member, NoMemory, NodeNo, Outcome, ServerNo, Tid};
use qs_engage::{Engaged, Nodes};
use qs_ops::{Cause, Vote};
use qs_record::Record;
use std::alloc::Global;
use std::mem::replace;

/// The greatest number of a transaction.
const LAST_NUMBER: u32 = 4_294_967_295;

/// The bytes of a batch beside its records, and of a Commit beside its list.
const COMMIT_FRAME: u64 = 41 + 15;

/// Why no transaction can begin.
#[derive(Clone, Copy)]
pub enum BeginFault {
    /// The log has no room for its records: `need` bytes are to be kept free for them, and `room` are.
    LogFull { need: u64, room: u64 },
    /// The last number of a transaction was given.
    Last { value: u64 },
    /// Memory was asked for and refused.
    NoMemory,
}

impl From<NoMemory> for BeginFault {
    ghost use Rattle.std.specs.Prelude.{◌≡◌};
    ghost use Rattle.qs_tm.specs.declared.manager.BeginFault.TheVariants.{NoMemory};

    ghost from_gives = { λ _ e. e ≡ NoMemory };

    fn from(_error: NoMemory) -> BeginFault {
        BeginFault::NoMemory
    }
}

/// What an inquiry about a transaction is answered by.
#[derive(Clone, Copy, PartialEq, Eq)]
pub enum Standing {
    /// It is not decided.
    Running,
    Committed,
    /// It is aborted, or nothing is known of it, which means the same.
    Unknown,
}

/// What a home makes of its decision.
#[derive(Drop)]
pub struct Decision {
    /// The record to append: a Commit to be forced, an Aborted, or none.
    pub rec: Option<Record>,
    /// The nodes that are to be told, in order.
    pub tell: List<NodeNo>,
}

/// Which transactions are looked for.
#[derive(Clone, Copy)]
pub enum Which {
    /// Those whose outcome is not known here.
    Undecided,
    /// Of these, those that are asked or can't be committed: something may be due to them.
    Due,
    /// Of these, those that began here `age` ticks before `ticks`, or earlier.
    Aged { ticks: u64, age: u64 },
    /// Those that have to do with that node.
    Concerned { peer: NodeNo },
}

/// The transactions that a node knows. A call about one that it does not know changes nothing, unless
/// it says otherwise. No call takes memory whose result has no `NoMemory`.
#[derive(Drop)]
pub struct Manager {
    /// The node itself.
    pub node: NodeNo,
    /// Its incarnation.
    pub inc: u64,
    /// The bytes before each record of a batch, at most 8.
    pub extra: u64,
    /// The bytes that the log keeps free for each transaction that is not ended, at most 144.
    pub keep: u64,
    /// How many transactions began here in this incarnation.
    pub begun: u32,
    /// How many ticks the node made in it.
    pub ticks: u64,
    /// What is kept of each transaction.
    pub known: Known,
    pub alloc: Global,
}

impl Manager {
    /// The manager of a node in that incarnation. It knows of nothing.
    pub fn new(alloc: Global, node: NodeNo, inc: u64, extra: u64, keep: u64) -> Manager
        ensures { result ≡ record { node = node; inc = inc; extra = extra; keep = keep; begun = 0; ticks = 0; known = []; alloc = alloc } }
    {
        Manager {
            node,
            inc,
            extra,
            keep,
            begun: 0,
            ticks: 0,
            known: Known::new(alloc),
            alloc,
        }
    }

    /// What is kept of a transaction; `None` exactly where it is unknown.
    pub fn part(&self, tid: Tid) -> Option<&Participant>
        ensures { option_copied result ≡ part_of tid self.now }
    {
        self.known.get(&tid)
    }

    /// Whether it was made known, and not forgotten since.
    pub fn knows(&self, tid: Tid) -> bool
        ensures { result ≡ knows tid self.now }
    {
        self.known.has(&tid)
    }

    // ---- beginning, meeting, forgetting

    /// A client begins a transaction here, where the log has `free` bytes free. `LogFull` comes exactly
    /// where these are fewer than are kept for a transaction, else `Last` exactly where the last number
    /// was given. After a refusal all is as it was.
    pub fn begin(&mut self, owner: ClientNo, free: u64) -> Result<Tid, BeginFault>
        ensures full { (need room : ℕ) → IsErrOf result (LogFull need room) ↔ (begin_fault free self.old ≡ Some (LogFull need room)) }
        ensures last { (value : ℕ) → IsErrOf result (Last value) ↔ (begin_fault free self.old ≡ Some (Last value)) }
        ensures lawful { OnOk result (begin_fault free self.old ≡ None) }
        ensures number { IfOk result (λ tid. tid ≡ next_tid self.old) }
        ensures ok { OnOk result (self.new ≡ begin owner self.old) }
        ensures err { OnErr result (self.new ≡ self.old) }
    {
        if free < self.keep {
            return Err(BeginFault::LogFull {
                need: self.keep,
                room: free,
            });
        }
        let Some(seq) = self.begun.checked_add(1) else {
            return Err(BeginFault::Last {
                value: u64::from(LAST_NUMBER),
            });
        };
        let tid = Tid {
            home: self.node,
            inc: self.inc,
            seq,
        };
        self.known
            .put(tid, Participant::begun(self.alloc, owner, self.ticks))?;
        self.begun = seq;
        Ok(tid)
    }

    /// The transaction is known from now on; of one that is known nothing changes.
    pub fn meet(&mut self, tid: Tid) -> Result<(), NoMemory>
        ensures ok { OnOk result (self.new ≡ meet tid self.old) }
        ensures err { OnErr result (self.new ≡ self.old) }
    {
        if !self.known.has(&tid) {
            let part = Participant::new(self.alloc, tid.home == self.node);
            self.known.put(tid, part)?;
        }
        Ok(())
    }

    /// It is kept as aborted, where it was unknown; of one that is known nothing changes.
    pub fn keep_abort(&mut self, tid: Tid) -> Result<(), NoMemory>
        ensures ok { OnOk result (self.new ≡ keep_abort tid self.old) }
        ensures err { OnErr result (self.new ≡ self.old) }
    {
        if !self.known.has(&tid) {
            let part = Participant::aborted(self.alloc, tid.home == self.node);
            self.known.put(tid, part)?;
        }
        Ok(())
    }

    /// It is unknown from now on.
    pub fn forget(&mut self, tid: Tid)
        ensures { self.new ≡ forget tid self.old }
    {
        self.known.remove(&tid);
    }

    /// The node made one more tick.
    pub fn tick(&mut self)
        ensures { self.new ≡ tick self.old }
    {
        self.ticks = self.ticks.saturating_add(1);
    }

    /// A record of an earlier incarnation is taken up: a Prepare as its vote, which at the home means
    /// abort, and a Commit with a list as the decision that is still to be told.
    pub fn take_up(&mut self, rec: &Record) -> Result<(), NoMemory>
        ensures ok { OnOk result (self.new ≡ take_up rec.now self.old) }
        ensures err { OnErr result (self.new ≡ self.old) }
    {
        match rec {
            Record::Prepare {
                tid,
                server,
                covers,
                ..
            } => self.take_up_vote(*tid, *server, *covers),
            Record::Commit { tid, told } => self.take_up_commit(*tid, told),
            Record::Aborted { .. } | Record::End { .. } => Ok(()),
        }
    }

    fn take_up_vote(&mut self, tid: Tid, server: ServerNo, covers: u32) -> Result<(), NoMemory>
        ensures ok { OnOk result (self.new ≡ take_up_vote tid server covers self.old) }
        ensures err { OnErr result (self.new ≡ self.old) }
    {
        let home = tid.home == self.node;
        self.meet(tid)?;
        self.vote_before(tid, home, server, covers);
        Ok(())
    }

    fn vote_before(&mut self, tid: Tid, home: bool, server: ServerNo, covers: u32)
        ensures { self.new ≡ with_part tid (voted_before home server covers) self.old }
    {
        if let Some(part) = self.known.get_mut(&tid) {
            part.voted_before(home, server, covers);
        }
    }

    fn take_up_commit(&mut self, tid: Tid, told: &List<NodeNo>) -> Result<(), NoMemory>
        ensures ok { OnOk result (self.new ≡ take_up_commit tid told.now self.old) }
        ensures err { OnErr result (self.new ≡ self.old) }
    {
        if !told.is_empty() {
            let home = tid.home == self.node;
            self.known
                .put(tid, Participant::committed_before(self.alloc, home, told))?;
        }
        Ok(())
    }

    // ---- requests

    /// The number of the next request of the transaction to another node, which counts as sent; `None`
    /// exactly where 4,294,967,295 were sent, or it is unknown. This node is to be told then.
    pub fn sent(&mut self, tid: Tid, to: NodeNo) -> Option<u32>
        ensures number { result ≡ sent_as tid to self.old }
        ensures state { self.new ≡ sent tid to self.old }
    {
        let part = self.known.get_mut(&tid)?;
        part.involved = true;
        part.engage.sent(to)
    }

    /// A request was issued here and waits for its reply.
    #[tactic(auto, using(std::proofs::lemmas::Map::Steps::set_value_same))]
    pub fn issued(&mut self, tid: Tid, request: Outstanding) -> Result<(), NoMemory>
        ensures ok { OnOk result (self.new ≡ issued tid request self.old) }
        ensures err { OnErr result (self.new ≡ self.old) }
    {
        match self.known.get_mut(&tid) {
            Some(part) => part.waiting.push(request),
            None => Ok(()),
        }
    }

    /// The request with this member and number waits no longer.
    pub fn drop_waiting(&mut self, tid: Tid, member: Member, number: u32)
        ensures { self.new ≡ drop_waiting tid member number self.old }
    {
        let alloc = self.alloc;
        if let Some(part) = self.known.get_mut(&tid) {
            part.drop_waiting(alloc, member, number);
        }
    }

    /// A note of files with this count of changes was served.
    #[tactic(auto, using(std::proofs::lemmas::Map::Steps::set_value_same))]
    pub fn note_served(&mut self, tid: Tid, count: u32) -> Result<(), NoMemory>
        ensures ok { OnOk result (self.new ≡ note_served tid count self.old) }
        ensures err { OnErr result (self.new ≡ self.old) }
    {
        match self.known.get_mut(&tid) {
            Some(part) => part.noted.push(count),
            None => Ok(()),
        }
    }

    /// A request came from another node: whether its sender is the superior.
    pub fn requested(&mut self, tid: Tid, from: NodeNo, number: u32) -> Engaged
        ensures answer { result ≡ engaged_at tid from self.old }
        ensures state { self.new ≡ requested tid from number self.old }
    {
        match self.known.get_mut(&tid) {
            Some(part) => part.engage.requested(from, number),
            None => Engaged::Elsewhere,
        }
    }

    /// A server served one more request, and how many it then served; `None` exactly where these were
    /// 4,294,967,295, or the transaction is unknown. Nothing is kept of a borrower.
    pub fn served(&mut self, tid: Tid, server: ServerNo) -> Option<u32>
        ensures count { result ≡ served_as tid server self.old }
        ensures state { self.new ≡ served tid server self.old }
    {
        match self.known.get_mut(&tid) {
            Some(part) => part.served(server),
            None => None,
        }
    }

    // ---- votes, readiness, refusals

    /// A member voted for so many of the requests that it served. An abort vote's cause is kept to be
    /// sent on, and the transaction can't be committed any more.
    #[tactic(auto, using(std::proofs::lemmas::Map::Steps::set_value_same))]
    pub fn voted(
        &mut self,
        tid: Tid,
        member: Member,
        vote: &Vote,
        covers: u32,
    ) -> Result<(), NoMemory>
        ensures ok { OnOk result (self.new ≡ voted tid member vote.now covers self.old) }
        ensures err { OnErr result (self.new ≡ self.old) }
    {
        match self.known.get_mut(&tid) {
            Some(part) => part.voted(member, vote, covers),
            None => Ok(()),
        }
    }

    /// The commit is asked for.
    pub fn ask(&mut self, tid: Tid)
        ensures { self.new ≡ ask tid self.old }
    {
        if let Some(part) = self.known.get_mut(&tid) {
            part.asked = true;
        }
    }

    /// It can't be committed any more: another node refused, or one is gone.
    pub fn refused(&mut self, tid: Tid)
        ensures { self.new ≡ refused tid self.old }
    {
        if let Some(part) = self.known.get_mut(&tid) {
            part.blocked = true;
        }
    }

    /// A cause is kept to be sent on.
    #[tactic(auto, using(std::proofs::lemmas::Map::Steps::set_value_same))]
    pub fn add_cause(&mut self, tid: Tid, cause: Cause) -> Result<(), NoMemory>
        ensures ok { OnOk result (self.new ≡ add_cause tid cause self.old) }
        ensures err { OnErr result (self.new ≡ self.old) }
    {
        match self.known.get_mut(&tid) {
            Some(part) => part.causes.push(cause),
            None => Ok(()),
        }
    }

    /// The causes that were not sent on, which are none from now on.
    pub fn take_causes(&mut self, tid: Tid) -> List<Cause>
        ensures causes { result ≡ causes_at tid self.old }
        ensures state { self.new ≡ take_causes tid self.old }
    {
        match self.known.get_mut(&tid) {
            Some(part) => replace(&mut part.causes, List::new(self.alloc)),
            None => List::new(self.alloc),
        }
    }

    /// That node answers for the requests up to this number, and these are to be told.
    pub fn counted(&mut self, tid: Tid, peer: NodeNo, up_to: u32, told: &List<NodeNo>)
        ensures { self.new ≡ counted tid peer up_to told.now self.old }
    {
        if let Some(part) = self.known.get_mut(&tid) {
            part.counted(tid.home, peer, up_to, told);
        }
    }

    /// Whether the transaction is ready, where the node is busy with it or not: it is asked, the node is
    /// not busy, every request that it sent is covered, no abort vote was made, `refused` was not called,
    /// and each server's last vote covers all that it served.
    pub fn ready(&self, tid: Tid, busy: bool) -> bool
        ensures { result ≡ is_ready tid busy self.now }
    {
        match self.known.get(&tid) {
            Some(part) => part.is_ready(busy),
            None => false,
        }
    }

    /// The superior is answered, and there is none then: who it was, and the number of its last request.
    pub fn released(&mut self, tid: Tid) -> Option<(NodeNo, u32)>
        ensures answer { result ≡ released_to tid self.old }
        ensures state { self.new ≡ released tid self.old }
    {
        match self.known.get_mut(&tid) {
            Some(part) => part.engage.release(),
            None => None,
        }
    }

    /// The told set in order.
    pub fn told(&self, tid: Tid) -> Result<List<NodeNo>, NoMemory>
        ensures { IfOk result (λ told. told ≡ told_at tid self.now) }
    {
        match self.known.get(&tid) {
            Some(part) => part.told.listed(self.alloc),
            None => Ok(List::new(self.alloc)),
        }
    }

    /// A node is in the told set from now on.
    pub fn add_told(&mut self, tid: Tid, node: NodeNo)
        ensures { self.new ≡ add_told tid node self.old }
    {
        if let Some(part) = self.known.get_mut(&tid) {
            part.told.put(node);
        }
    }

    // ---- the outcome

    /// The home decides: the record to append, and the nodes that are to be told. What is in the log
    /// changes by `logged`.
    pub fn decide(&mut self, tid: Tid, outcome: Outcome) -> Result<Decision, NoMemory>
        ensures decision { IfOk result (λ made. made ≡ decision tid outcome self.old) }
        ensures ok { OnOk result (self.new ≡ decide tid outcome self.old) }
        ensures err { OnErr result (self.new ≡ self.old) }
    {
        let made = self.decision(tid, outcome)?;
        if let Some(part) = self.known.get_mut(&tid) {
            part.decide(outcome);
        }
        Ok(made)
    }

    fn decision(&self, tid: Tid, outcome: Outcome) -> Result<Decision, NoMemory>
        ensures { IfOk result (λ made. made ≡ decision tid outcome self.now) }
    {
        match self.known.get(&tid) {
            Some(part) => {
                let tell = part.tell_of(outcome).listed(self.alloc)?;
                let rec = part.record_of(self.alloc, tid, outcome)?;
                Ok(Decision { rec, tell })
            }
            None => Ok(Decision {
                rec: None,
                tell: List::new(self.alloc),
            }),
        }
    }

    /// Elsewhere than at the home the outcome came.
    pub fn took_outcome(&mut self, tid: Tid, outcome: Outcome)
        ensures { self.new ≡ took_outcome tid outcome self.old }
    {
        if let Some(part) = self.known.get_mut(&tid) {
            part.outcome = Some(outcome);
        }
    }

    /// A server learnt how the transaction ends.
    pub fn settled(&mut self, tid: Tid, server: ServerNo)
        ensures { self.new ≡ settled tid server self.old }
    {
        if let Some(part) = self.known.get_mut(&tid) {
            part.settled(server);
        }
    }

    /// A record of it is appended to the log.
    pub fn logged(&mut self, tid: Tid, rec: &Record)
        ensures { self.new ≡ logged tid rec.now self.old }
    {
        if let Some(part) = self.known.get_mut(&tid) {
            part.logged(rec);
        }
    }

    /// That node took the outcome in; `true` where all that were to be told a commit did.
    pub fn acknowledged(&mut self, tid: Tid, peer: NodeNo) -> bool
        ensures all { result ≡ all_acknowledged tid peer self.old }
        ensures state { self.new ≡ acknowledged tid peer self.old }
    {
        match self.known.get_mut(&tid) {
            Some(part) => part.acknowledge(peer),
            None => false,
        }
    }

    /// These nodes are told of the abort too: which of them were not told before.
    pub fn take_names(&mut self, tid: Tid, further: &List<NodeNo>) -> Nodes
        ensures names { result ≡ new_names tid further.now self.old }
        ensures state { self.new ≡ take_names tid further.now self.old }
    {
        match self.known.get_mut(&tid) {
            Some(part) => part.take_names(tid.home, further),
            None => Nodes::NONE,
        }
    }

    /// A node is told the outcome too.
    pub fn add_tell(&mut self, tid: Tid, node: NodeNo)
        ensures { self.new ≡ add_tell tid node self.old }
    {
        if let Some(part) = self.known.get_mut(&tid) {
            part.tell.put(node);
        }
    }

    /// That node restarted: the number of its last request is 0 until its next one.
    pub fn restarted(&mut self, tid: Tid, peer: NodeNo)
        ensures { self.new ≡ restarted tid peer self.old }
    {
        if let Some(part) = self.known.get_mut(&tid) {
            part.engage.restarted(peer);
        }
    }

    /// What an inquiry about a transaction is answered by, known or not.
    pub fn standing(&self, tid: Tid) -> Standing
        ensures { result ≡ standing tid self.now }
    {
        match self.known.get(&tid) {
            Some(part) => standing_of(part.outcome),
            None => Standing::Unknown,
        }
    }

    /// How many bytes a Commit of it needs, with those that are kept for it, where it is to be written
    /// and neither these are there among `free` nor any are kept for it; `None` exactly elsewhere.
    pub fn need_past(&self, tid: Tid, free: u64) -> Result<Option<u64>, NoMemory>
        requires extra { self.now.extra ≤ 8 }
        requires keep { self.now.keep ≤ 144 }
        ensures { IfOk result (λ need. need ≡ need_past tid free self.now) }
    {
        match self.known.get(&tid) {
            Some(part) => self.need_of(part, free),
            None => Ok(None),
        }
    }

    fn need_of(&self, part: &Participant, free: u64) -> Result<Option<u64>, NoMemory>
        requires extra { self.now.extra ≤ 8 }
        requires keep { self.now.keep ≤ 144 }
        ensures { IfOk result (λ need. need ≡ need_of free self.now part.now) }
    {
        let told = part.told.listed(self.alloc)?;
        let need = COMMIT_FRAME + self.extra + told.len() as u64 + self.keep;
        if part.writes_commit() && (!part.log.unended && free < need) {
            Ok(Some(need))
        } else {
            Ok(None)
        }
    }

    // ---- which transactions

    /// The transactions whose outcome is not known here, in order.
    pub fn undecided(&self) -> Result<List<Tid>, NoMemory>
        ensures { IfOk result (λ tids. tids ≡ undecided self.now) }
    {
        self.tids_of(Which::Undecided)
    }

    /// Of these, those to which something may be due at the end of a step: they are asked, or can't be
    /// committed any more.
    pub fn due(&mut self) -> Result<List<Tid>, NoMemory>
        ensures due { IfOk result (λ tids. tids ≡ due self.old) }
        ensures same { self.new ≡ self.old }
    {
        self.known.due(self.alloc)
    }

    /// The transactions that began here, are not decided, and are at least that many ticks old.
    pub fn aged(&self, age: u64) -> Result<List<Tid>, NoMemory>
        ensures { IfOk result (λ tids. tids ≡ aged age self.now) }
    {
        self.tids_of(Which::Aged {
            ticks: self.ticks,
            age,
        })
    }

    /// The transactions that have to do with that node, in order.
    pub fn concerned(&self, peer: NodeNo) -> Result<List<Tid>, NoMemory>
        ensures { IfOk result (λ tids. tids ≡ concerned peer self.now) }
    {
        self.tids_of(Which::Concerned { peer })
    }

    fn tids_of(&self, which: Which) -> Result<List<Tid>, NoMemory>
        ensures { IfOk result (λ tids. tids ≡ tids_of which self.now) }
    {
        let mut tids = List::new(self.alloc);
        for entry in self.known.iter() {
            put_tid(&mut tids, which, *entry.0, entry.1)?;
        }
        Ok(tids)
    }

    /// Whether this node is the home of a transaction that it has not decided.
    pub fn has_undecided(&self) -> bool
        ensures { result ≡ has_undecided self.now }
    {
        self.known.iter().any(|entry| is_open_home(entry.1))
    }

    /// Whether a server of this node is still to learn the outcome of a transaction.
    pub fn has_learners(&self) -> bool
        ensures { result ≡ has_learners self.now }
    {
        self.known.iter().any(|entry| entry.1.is_learning())
    }
}

fn standing_of(outcome: Option<Outcome>) -> Standing
    ensures { result ≡ standing_of outcome }
{
    match outcome {
        None => Standing::Running,
        Some(Outcome::Commit) => Standing::Committed,
        Some(Outcome::Abort) => Standing::Unknown,
    }
}

fn is_open_home(part: &Participant) -> bool
    ensures { result ≡ is_open part.now }
{
    part.engage.home && part.outcome.is_none()
}

pub(crate) fn put_tid(
    tids: &mut List<Tid>,
    which: Which,
    tid: Tid,
    part: &Participant,
) -> Result<(), NoMemory>
    ensures { OnOk result (tids.new ≡ put_tid which tids.old (tid, part.now)) }
{
    if is_one(which, tid, part) {
        tids.push(tid)?;
    }
    Ok(())
}

fn is_one(which: Which, tid: Tid, part: &Participant) -> bool
    ensures { result ≡ is_one which tid part.now }
{
    match which {
        Which::Undecided => part.outcome.is_none(),
        Which::Due => part.outcome.is_none() && (part.asked || part.blocked),
        Which::Aged { ticks, age } => {
            part.outcome.is_none()
                && (part.engage.home && age <= ticks.saturating_sub(part.begun_at))
        }
        Which::Concerned { peer } => concerns(peer, tid, part),
    }
}

fn concerns(peer: NodeNo, tid: Tid, part: &Participant) -> bool
    ensures { result ≡ concerns peer tid part.now }
{
    (tid.home == peer || !part.engage.is_idle_with(peer))
        || (part.answered_to(peer) || (part.tell.contains(peer) || part.waits_for(peer)))
}
