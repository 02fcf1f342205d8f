//! Whole runs, so that the laws are not empty.
ghost use Rattle.qs_world_agree_ends.specs.Seen.{ChainIsSeen, MomentsAreSeen, RingIsSeen, VotesAreSeen, AbortIsSeen};

/// A chain of two nodes is drawn in, the second one after the home has decided abort, and says yes from the end of it: a request is still to be handed up,
/// then owed an answer, then answered. The home drops what comes too late.
pub fn chain_is_seen()
    ensures seen { ChainIsSeen }
{}

/// When places were engaged and said yes in a late join, and in an abort that goes down a chain.
pub fn moments_are_seen()
    ensures seen { MomentsAreSeen }
{}

/// Two running places owe each other an answer, where the place that engaged one of them has stopped: so who owes an answer need not be further from the
/// home.
pub fn ring_is_seen()
    ensures seen { RingIsSeen }
{}

/// The votes of two nodes lead to a world in which nothing of them is left to do.
pub fn votes_are_seen()
    ensures seen { VotesAreSeen }
{}

/// An abort that is told down a chain leads to a world in which nothing of it is left to tell.
pub fn abort_is_seen()
    ensures seen { AbortIsSeen }
{}
