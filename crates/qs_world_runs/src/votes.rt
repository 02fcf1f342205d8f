//! What the votes of a step are of.
ghost use Rattle.qs_world_runs.specs.Awaiting.{AwaitedAt};
ghost use Rattle.qs_world_runs.specs.VotesSame.{EachVoteSame};

/// Each vote that a step puts on record is of what its server had pending for the transaction as the step began: a server that serves a request of it in the
/// step does not vote on it then, and a vote or a notice leaves what is pending, or nothing to vote on.
pub fn votes_are_of_what_was_pending()
    ensures { EachVoteSame AwaitedAt }
{}
