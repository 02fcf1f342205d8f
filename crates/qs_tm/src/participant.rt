//! What a node keeps of one transaction.
ghost use Rattle.std.specs.Prelude.{◌≡◌, ◌&&◌, ◌||◌, not, OnOk, OnErr, IfOk};
ghost use Rattle.std.specs.List.{filter, list_any, list_all};
ghost use Rattle.std.specs.Option.{option_copied};
ghost use Rattle.qs_tm.specs.Participant.{new_participant, begun_participant, member_of, with_member, all_agree, agrees_at, needs_pass, only_read, has_read_at, is_due_at, servers_due, has_due, learners, is_learning, waiting_for, drop_waiting, is_answered_by, is_by_files, awaits_note, has_noted, is_ready, is_forgotten, is_to, is_owed_by, answered_to, served, next_served, voted, with_causes_of, waits_for, counted};

use crate::members::{
    Cast, MemberPart, SERVER_COUNT, ballot_of, every_server, is_binding, is_told_class,
};
use qs_base::{Class, ClientNo, Copied, List, Member, NoMemory, NodeNo, Outcome, ServerNo};
use qs_engage::{Engage, Nodes};
use qs_ops::servers::FILES;
use qs_ops::{Cause, Vote, class_of, is_two_phase};
use std::alloc::Global;
use std::mem::replace;

/// A request that was issued here and has no reply yet.
#[derive(Clone, Copy)]
pub struct Outstanding {
    /// Files, or a client by its number as a borrower.
    pub issuer: ServerNo,
    pub member: Member,
    pub number: u32,
    /// Of a note that files issued: the count of changes in it.
    pub count: u32,
}

/// What may be due to a server.
#[derive(Clone, Copy)]
pub enum Due {
    /// It is to vote.
    Vote,
    /// It is to be told that the transaction ends.
    Ending,
    /// It is to learn the outcome, as one that votes.
    FirstTold,
    /// It is to learn the outcome once those that vote have.
    ThenTold,
    /// It is to learn the outcome last.
    LastTold,
}

/// What the log of this node has of the transaction.
#[derive(Clone, Copy)]
pub struct InLog {
    /// A record of it that is not ended.
    pub unended: bool,
    /// A Prepare that is not ended, and no Commit.
    pub prepared: bool,
    /// A Commit with a list, and no End.
    pub listed: bool,
}

/// All that a node keeps of one transaction in its present incarnation.
#[derive(Drop)]
pub struct Participant {
    /// The client that began it here; `None` where it began elsewhere or was taken up from the log.
    pub owner: Option<ClientNo>,
    /// How many ticks this node had made as it began here.
    pub begun_at: u64,
    /// Whom this node answers to, and what went to and came from each other node.
    pub engage: Engage,
    /// What each server here did, by number.
    pub members: [MemberPart; 7],
    /// The requests issued here that have no reply yet.
    pub waiting: List<Outstanding>,
    /// The counts of changes in the notes of files that were served.
    pub noted: List<u32>,
    /// Whether this node is to be told the outcome: a server voted volatile or recoverable, one that
    /// is told without a vote was used, or a request was sent to another node.
    pub involved: bool,
    /// Whether it is being committed, as far as is known here.
    pub asked: bool,
    /// Whether it can't be committed any more: a server voted abort here, another node refused, or one
    /// is gone.
    pub blocked: bool,
    /// Why, as far as that was not sent on.
    pub causes: List<Cause>,
    /// The told set: the nodes that are to be told the outcome, as far as they are known here.
    pub told: Nodes,
    /// The outcome, where it is known here.
    pub outcome: Option<Outcome>,
    /// At the home, once it is decided: the nodes that are to be told.
    pub tell: Nodes,
    /// And those that took it in.
    pub acknowledged: Nodes,
    pub log: InLog,
}

impl Outstanding {
    /// Whether a reply with this member and number answers it.
    pub fn is_answered_by(&self, member: Member, number: u32) -> bool
        ensures { result ≡ is_answered_by member number self.now }
    {
        self.member == member && self.number == number
    }

    /// Whether files issued it.
    pub fn is_by_files(&self) -> bool
        ensures { result ≡ is_by_files self.now }
    {
        self.issuer == FILES
    }

    fn is_to(&self, peer: NodeNo) -> bool
        ensures { result ≡ is_to peer self.now }
    {
        self.member.node == peer
    }
}

impl InLog {
    /// Nothing.
    pub const NOTHING: InLog = InLog {
        unended: false,
        prepared: false,
        listed: false,
    };
}

impl Participant {
    /// One that the node has only heard of. It takes no memory.
    pub fn new(alloc: Global, home: bool) -> Participant
        ensures { result ≡ new_participant home }
    {
        Participant {
            owner: None,
            begun_at: 0,
            engage: Engage::new(home),
            members: [MemberPart::NONE; 7],
            waiting: List::new(alloc),
            noted: List::new(alloc),
            involved: false,
            asked: false,
            blocked: false,
            causes: List::new(alloc),
            told: Nodes::NONE,
            outcome: None,
            tell: Nodes::NONE,
            acknowledged: Nodes::NONE,
            log: InLog::NOTHING,
        }
    }

    /// One that a client begins here, after that many ticks. It takes no memory.
    pub fn begun(alloc: Global, owner: ClientNo, ticks: u64) -> Participant
        ensures { result ≡ begun_participant owner ticks }
    {
        Participant {
            owner: Some(owner),
            begun_at: ticks,
            ..Participant::new(alloc, true)
        }
    }

    // ---- requests

    /// The request that a reply with this member and number is for; `None` exactly where none waits.
    pub fn waiting_for(&self, member: Member, number: u32) -> Option<&Outstanding>
        ensures { option_copied result ≡ waiting_for member number self.now }
    {
        self.waiting
            .as_slice()
            .iter()
            .find(|request| request.is_answered_by(member, number))
    }

    /// It waits no longer. It takes no memory.
    pub fn drop_waiting(&mut self, alloc: Global, member: Member, number: u32)
        ensures { self.new ≡ drop_waiting member number self.old }
    {
        let mut waiting = replace(&mut self.waiting, List::new(alloc)).into_vec();
        drop_answered(&mut waiting, member, number);
        self.waiting = List::from_vec(waiting);
    }

    /// Whether a request that files issued has no reply yet.
    pub fn awaits_note(&self) -> bool
        ensures { result ≡ awaits_note self.now }
    {
        self.waiting
            .as_slice()
            .iter()
            .any(|request| request.is_by_files())
    }

    /// Whether a note of files with this count of changes was served.
    pub fn has_noted(&self, count: u32) -> bool
        ensures { result ≡ has_noted count self.now }
    {
        self.noted.as_slice().iter().any(|other| *other == count)
    }

    /// What that server did; nothing of one that no node has.
    pub fn member(&self, server: ServerNo) -> MemberPart
        ensures { result ≡ member_of self.now server }
    {
        match self.members.get(usize::from(server.0)) {
            Some(member) => *member,
            None => MemberPart::NONE,
        }
    }

    /// What that server did is this from now on.
    pub fn put_member(&mut self, server: ServerNo, member: MemberPart)
        ensures { self.new ≡ with_member server member self.old }
    {
        let place = usize::from(server.0);
        if place < SERVER_COUNT {
            self.members[place] = member;
        }
    }

    /// A server served one more request, and how many it then served; `None` exactly where these were
    /// 4,294,967,295, and then nothing changes. Nothing is kept of a borrower.
    pub fn served(&mut self, server: ServerNo) -> Option<u32>
        ensures count { result ≡ next_served server self.old }
        ensures state { self.new ≡ served server self.old }
    {
        let member = self.member(server);
        let served = member.served.checked_add(1)?;
        self.put_member(
            server,
            MemberPart {
                served,
                fresh: true,
                ..member
            },
        );
        self.involved = self.involved || is_told_class(class_of(server));
        Some(served)
    }

    // ---- votes

    /// A server voted for so many of the requests that it served; an abort vote's cause is kept to be
    /// sent on.
    pub fn voted(&mut self, member: Member, vote: &Vote, covers: u32) -> Result<(), NoMemory>
        ensures ok { OnOk result (self.new ≡ voted member vote.now covers self.old) }
        ensures err { OnErr result (self.new ≡ self.old) }
    {
        self.add_causes_of(member, vote)?;
        let ballot = ballot_of(vote);
        self.put_member(
            member.server,
            MemberPart {
                vote: Some(Cast { ballot, covers }),
                ..self.member(member.server)
            },
        );
        self.involved = self.involved || is_binding(ballot);
        Ok(())
    }

    fn add_causes_of(&mut self, member: Member, vote: &Vote) -> Result<(), NoMemory>
        ensures ok { OnOk result (self.new ≡ with_causes_of member vote.now self.old) }
        ensures err { OnErr result (self.new ≡ self.old) }
    {
        if let Vote::Abort { reason } = vote {
            let reason = reason.copy()?;
            self.causes.push(Cause::Voted { member, reason })?;
            self.blocked = true;
        }
        Ok(())
    }

    /// Whether that is due to the server.
    pub fn is_due_at(&self, due: Due, server: ServerNo) -> bool
        ensures { result ≡ is_due_at due self.now server }
    {
        let member = self.member(server);
        let class = class_of(server);
        match due {
            Due::Vote => member.is_vote_due(server),
            Due::Ending => member.is_ending_due(server),
            Due::FirstTold => is_two_phase(class) && member.is_to_learn(class),
            Due::ThenTold => class == Class::Standard && member.is_to_learn(class),
            Due::LastTold => class == Class::Delayed && member.is_to_learn(class),
        }
    }

    /// The servers to which that is due, in order.
    pub fn servers_due(&self, alloc: Global, due: Due) -> Result<List<ServerNo>, NoMemory>
        ensures { IfOk result (λ servers. servers ≡ servers_due due self.now) }
    {
        self.due_among(alloc, due, every_server())
    }

    fn due_among(
        &self,
        alloc: Global,
        due: Due,
        servers: &[ServerNo],
    ) -> Result<List<ServerNo>, NoMemory>
        ensures { IfOk result (λ list. list ≡ filter (is_due_at due self.now) servers.now) }
    {
        let list = servers
            .iter()
            .copied()
            .filter(|server| self.is_due_at(due, *server))
            .collect(alloc)?;
        Ok(List::from_vec(list))
    }

    /// Whether that is due to a server.
    pub fn has_due(&self, due: Due) -> bool
        ensures { result ≡ has_due due self.now }
    {
        self.has_due_among(due, every_server())
    }

    fn has_due_among(&self, due: Due, servers: &[ServerNo]) -> bool
        ensures { result ≡ list_any (is_due_at due self.now) servers.now }
    {
        servers.iter().any(|server| self.is_due_at(due, *server))
    }

    /// Whether a vote pass has something to do.
    pub fn needs_pass(&self) -> bool
        ensures { result ≡ needs_pass self.now }
    {
        self.has_due(Due::Vote) || self.has_due(Due::Ending)
    }

    /// The servers that are still to learn the outcome: two-phase ones first, then standard, then delayed
    /// ones, each in order.
    pub fn learners(&self, alloc: Global) -> Result<List<ServerNo>, NoMemory>
        ensures { IfOk result (λ servers. servers ≡ learners self.now) }
    {
        let mut all = self.servers_due(alloc, Due::FirstTold)?.into_vec();
        let then = self.servers_due(alloc, Due::ThenTold)?;
        all.extend_from_slice(then.as_slice())?;
        let last = self.servers_due(alloc, Due::LastTold)?;
        all.extend_from_slice(last.as_slice())?;
        Ok(List::from_vec(all))
    }

    /// Whether a server is still to learn the outcome. It takes no memory.
    #[tactic(auto, using(crate::proofs::Learning::learning_by_dues))]
    pub fn is_learning(&self) -> bool
        ensures { result ≡ is_learning self.now }
    {
        (self.has_due(Due::FirstTold) || self.has_due(Due::ThenTold)) || self.has_due(Due::LastTold)
    }

    // ---- readiness and forgetting

    fn agrees_at(&self, server: ServerNo) -> bool
        ensures { result ≡ agrees_at self.now server }
    {
        self.member(server).agrees(server)
    }

    fn agree_among(&self, servers: &[ServerNo]) -> bool
        ensures { result ≡ list_all (agrees_at self.now) servers.now }
    {
        servers.iter().all(|server| self.agrees_at(*server))
    }

    /// Whether each server voted for all that it served, if it votes, and none against a commit.
    pub fn all_agree(&self) -> bool
        ensures { result ≡ all_agree self.now }
    {
        self.agree_among(every_server())
    }

    /// Whether it can be committed, or its superior told so, where the node is busy with it or not.
    pub fn is_ready(&self, busy: bool) -> bool
        ensures { result ≡ is_ready busy self.now }
    {
        (self.asked && !self.blocked) && ((!busy && self.engage.passive()) && self.all_agree())
    }

    /// That node answers for the requests up to this number, and these are to be told; the home is in
    /// no told set.
    pub fn counted(&mut self, home: NodeNo, peer: NodeNo, up_to: u32, told: &List<NodeNo>)
        ensures { self.new ≡ counted home peer up_to told.now self.old }
    {
        self.engage.covered(peer, up_to);
        self.told.join(told);
        self.told.remove(home);
    }

    fn has_read_at(&self, server: ServerNo) -> bool
        ensures { result ≡ has_read_at self.now server }
    {
        self.member(server).has_read(server)
    }

    fn read_among(&self, servers: &[ServerNo]) -> bool
        ensures { result ≡ list_all (has_read_at self.now) servers.now }
    {
        servers.iter().all(|server| self.has_read_at(*server))
    }

    /// Whether each server that votes did nothing or voted read-only for all that it served.
    pub fn only_read(&self) -> bool
        ensures { result ≡ only_read self.now }
    {
        self.read_among(every_server())
    }

    /// Whether it may be forgotten here: elsewhere than at the home, not decided, with no superior, not
    /// to be told, with nobody to be told, and only read.
    pub fn is_forgotten(&self) -> bool
        ensures { result ≡ is_forgotten self.now }
    {
        (self.outcome.is_none() && !self.engage.home)
            && ((self.engage.superior.is_none() && !self.involved)
                && (self.told.is_empty() && self.only_read()))
    }

    // ---- another node's restart

    /// Whether a request to that node has no reply yet.
    pub fn waits_for(&self, peer: NodeNo) -> bool
        ensures { result ≡ waits_for peer self.now }
    {
        self.waiting
            .as_slice()
            .iter()
            .any(|request| request.is_to(peer))
    }

    /// Whether that node owes something: an answer for a request, or a reply.
    pub fn is_owed_by(&self, peer: NodeNo) -> bool
        ensures { result ≡ is_owed_by peer self.now }
    {
        self.engage.open_to(peer) || self.waits_for(peer)
    }

    /// Whether this node answers, or answered last, to that node.
    pub fn answered_to(&self, peer: NodeNo) -> bool
        ensures { result ≡ answered_to peer self.now }
    {
        self.engage.superior == Some(peer) || self.engage.last_superior == Some(peer)
    }
}

fn drop_answered(waiting: &mut Vec<Outstanding>, member: Member, number: u32)
    ensures { waiting.new.items ≡ filter (λ request. not (is_answered_by member number request)) waiting.old.items }
{
    waiting.retain(|request| !request.is_answered_by(member, number));
}
