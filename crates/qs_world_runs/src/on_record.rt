//! What is on record of votes at nodes that run.
ghost use Rattle.qs_world_runs.specs.JoinedPlaces.{PlacesAt};
ghost use Rattle.qs_world_runs.specs.OnRecord.{StepsPutVotes};
ghost use Rattle.qs_world_runs.specs.RecordLaws.{MovesKeepCovers, MovesKeepRecords, OpensCovers, OpensRecords, VotesAreBeyond, VotesAreFresh};

/// Each vote that a step puts on record has its Prepare in the step's batch.
pub fn steps_put_votes()
    ensures { StepsPutVotes }
{}

/// At a node that runs each vote that is on record stands in its log still, or its Commit does, or the node keeps that the transaction is
/// aborted. So it is as a run begins, and after each move.
pub fn records_are_known()
    ensures opens { OpensRecords }
    ensures moves { MovesKeepRecords PlacesAt }
{}

/// So a vote of a step has other covers than what is on record of its member, where the transaction is aborted and the log does not have that any more:
/// the node knows the abort, and votes no more.
pub fn votes_are_fresh()
    ensures { VotesAreFresh PlacesAt }
{}

/// Of each vote that stands in doubt in the log of a node that runs the last vote of its member covers at least as much, while the node knows its
/// transaction. So it is as a run begins, and after each move.
pub fn last_votes_cover()
    ensures opens { OpensCovers }
    ensures moves { MovesKeepCovers PlacesAt }
{}

/// So a vote of a step covers more than what is on record of its member and found in the log: it is due only as something was served since.
pub fn votes_are_beyond()
    ensures { VotesAreBeyond PlacesAt }
{}
