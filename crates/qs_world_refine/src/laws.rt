//! What holds of the world of nodes over every run.
ghost use Rattle.qs_world_refine.specs.EveryRun.{WholeTaken, EveryRunShown, EveryRunGoes, EveryLogGrows, EveryRunAgrees, EveryRunTells, EveryRunTellsLearners};
ghost use Rattle.qs_world_refine.specs.WorldLaws.{NodesAgree, LogsStand, LearnersStand};

/// Over every run each transaction that has begun, in it or before, is shown by a lawful world of the agreement machine, and goes on by
/// the machine's events. And each log only grows, by records that name transactions.
pub fn every_run()
    ensures whole { WholeTaken }
    ensures shown { EveryRunShown }
    ensures goes { EveryRunGoes }
    ensures grows { EveryLogGrows }
{}

/// Nodes agree: nobody knows a commit where another knows an abort.
pub fn agreement()
    ensures nodes { NodesAgree }
    ensures runs { EveryRunAgrees }
{}

/// Nobody is forgotten: where the home's log has the Commit, each other node whose log has a vote in doubt is still to be told,
/// and so is each that runs, has not decided and is to learn the outcome.
pub fn nobody_forgotten()
    ensures logs { LogsStand }
    ensures runs { EveryRunTells }
    ensures learners { LearnersStand }
    ensures learners_of_runs { EveryRunTellsLearners }
{}
