//! Replies that come are true.
ghost use Rattle.qs_world_runs.specs.RepliesRuns.{MovesKeepReplies};
ghost use Rattle.qs_world_runs.specs.RepliesTrue.{BetweenKeepReplies, EachStepTells, FreshMarked, FreshQueues, GivenStays, IssuesGive, OpensReplies, RepliesTrue, ServedStays, ServesOnce, StepKeepsReplies};

/// That a node gave a number in an incarnation stays so through each entry of a history, while it begins no later one; and so does that
/// the request under it stands at its member no more, or crossed the transaction there. It does so once it is served.
pub fn numbers_stay()
    ensures given { GivenStays }
    ensures served { ServedStays }
    ensures once { ServesOnce }
{}

/// Where each reply that was posted is of a request that stands no more, so is one that comes in a step: all places hold what they should, so
/// the transaction is not crossed.
pub fn replies_are_true()
    ensures { RepliesTrue }
{}

/// Each reply that was posted is of such a request as a run begins, since none was; and it is so after a crash, a restart and a first meeting,
/// and after a whole step where what the step sends is so, and what waits at its node then.
pub fn replies_stay_true()
    ensures opens { OpensReplies }
    ensures between { BetweenKeepReplies }
    ensures steps { StepKeepsReplies }
{}

/// What the rules of a step do: a request that is issued has a number that its node gave; and what waits is of the incarnations that its node knows, or
/// stale, through all that queues do.
pub fn queues_stay_fresh()
    ensures issues { IssuesGive }
    ensures queues { FreshQueues }
    ensures marks { FreshMarked }
{}

/// A whole step sends a reply only as it serves the request, and a request only as it issues it; what comes to wait is of the incarnation that its node
/// knows, and what waits of a node that restarted is stale from the beginning of the step in which that is known.
pub fn steps_tell_true()
    ensures { EachStepTells }
{}

/// So it stays through every move whose entries are lawful.
pub fn replies_are_carried()
    ensures { MovesKeepReplies }
{}
