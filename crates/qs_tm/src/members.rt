//! What the servers of a node did for a transaction.
ghost use Rattle.std.specs.Prelude.{◌≡◌};
ghost use Rattle.qs_tm.specs.Members.{all_servers, ballot_of, is_binding, is_covering, is_against, votes_here, is_vote_due, is_ending_due, agrees, is_let_go, has_read, is_to_learn, is_told_class};

use qs_base::{Class, ServerNo};
use qs_ops::{Vote, class_of, is_two_phase, servers};

/// How many servers a node has.
pub const SERVER_COUNT: usize = 7;

const ALL_SERVERS: [ServerNo; 7] = [
    servers::FILES,
    servers::AUDIT,
    servers::NAMES,
    servers::TIMERS,
    servers::WINDOWS,
    servers::SCRATCH,
    servers::EXTRA,
];

/// The servers of a node, in order.
#[tactic(auto, unfolding(crate::specs::Members::all_servers))]
pub fn every_server() -> &'static [ServerNo]
    ensures { result.now ≡ all_servers }
{
    &ALL_SERVERS
}

/// A vote without its reason.
#[derive(Clone, Copy, PartialEq, Eq)]
pub enum Ballot {
    Abort,
    ReadOnly,
    Volatile,
    Recoverable,
}

/// A vote, and how many served requests it covers.
#[derive(Clone, Copy)]
pub struct Cast {
    pub ballot: Ballot,
    pub covers: u32,
}

/// What a server of this node did for the transaction in the present incarnation.
#[derive(Clone, Copy)]
pub struct MemberPart {
    /// How many requests it served, with those that a vote in the log covers.
    pub served: u32,
    /// Whether it served or kept something since it last learnt how the transaction ends.
    pub fresh: bool,
    /// Its last vote.
    pub vote: Option<Cast>,
}

impl MemberPart {
    /// It did nothing.
    pub const NONE: MemberPart = MemberPart {
        served: 0,
        fresh: false,
        vote: None,
    };

    /// Whether the last vote covers all that was served.
    pub fn is_covering(&self) -> bool
        ensures { result ≡ is_covering self.now }
    {
        match self.vote {
            None => self.served == 0,
            Some(cast) => cast.covers == self.served,
        }
    }

    /// Whether the last vote is against a commit.
    pub fn is_against(&self) -> bool
        ensures { result ≡ is_against self.now }
    {
        match self.vote {
            None => false,
            Some(cast) => cast.ballot == Ballot::Abort,
        }
    }

    /// Whether it has nothing pending and is told no outcome: it read only, and served nothing since.
    pub fn is_let_go(&self) -> bool
        ensures { result ≡ is_let_go self.now }
    {
        match self.vote {
            None => false,
            Some(cast) => cast.ballot == Ballot::ReadOnly && cast.covers == self.served,
        }
    }

    /// Whether it is still to be told the outcome, being of that class.
    pub fn is_to_learn(&self, class: Class) -> bool
        ensures { result ≡ is_to_learn class self.now }
    {
        match class {
            Class::Recoverable | Class::Volatile => self.fresh && !self.is_let_go(),
            Class::Standard | Class::Delayed => self.fresh,
            Class::Immediate | Class::Activity => false,
        }
    }

    /// Whether the vote of that server, which did this, is due.
    pub fn is_vote_due(&self, server: ServerNo) -> bool
        ensures { result ≡ is_vote_due server self.now }
    {
        votes_here(server) && !self.is_covering()
    }

    /// Whether that server, which did this, is to be told that the transaction ends.
    pub fn is_ending_due(&self, server: ServerNo) -> bool
        ensures { result ≡ is_ending_due server self.now }
    {
        class_of(server) == Class::Immediate && self.fresh
    }

    /// Whether that server, which did this, did nothing or read only, if it votes.
    pub fn has_read(&self, server: ServerNo) -> bool
        ensures { result ≡ has_read server self.now }
    {
        !votes_here(server) || ((self.served == 0 && self.vote.is_none()) || self.is_let_go())
    }

    /// Whether that server, which did this, voted for all that it served, if it votes.
    pub fn agrees(&self, server: ServerNo) -> bool
        ensures { result ≡ agrees server self.now }
    {
        !votes_here(server) || (self.is_covering() && !self.is_against())
    }
}

/// The vote without its reason.
pub fn ballot_of(vote: &Vote) -> Ballot
    ensures { result ≡ ballot_of vote.now }
{
    match vote {
        Vote::Abort { .. } => Ballot::Abort,
        Vote::ReadOnly => Ballot::ReadOnly,
        Vote::Volatile => Ballot::Volatile,
        Vote::Recoverable => Ballot::Recoverable,
    }
}

/// Whether a node with such a vote is to be told the outcome.
pub fn is_binding(ballot: Ballot) -> bool
    ensures { result ≡ is_binding ballot }
{
    ballot == Ballot::Volatile || ballot == Ballot::Recoverable
}

/// Whether that server votes.
pub fn votes_here(server: ServerNo) -> bool
    ensures { result ≡ votes_here server }
{
    is_two_phase(class_of(server))
}

/// Whether members of that class are told the outcome without a vote.
pub fn is_told_class(class: Class) -> bool
    ensures { result ≡ is_told_class class }
{
    class == Class::Standard || class == Class::Delayed
}
