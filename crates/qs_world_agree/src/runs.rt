//! Whole runs, so that the laws are not empty.
ghost use Rattle.qs_world_agree.specs.Runs.{LateJoin, AbortChain, CutPass, CutCommit, LeftCommit, LeftDoubt};

/// A node joins late and over a loan, votes in two passes, crashes and restarts, and the commit is learnt by all and ended.
pub fn late_join()
    ensures shown { LateJoin }
{}

/// An abort travels a chain of nodes that only a dead node's requests reach, over a restart of the home.
pub fn abort_chain()
    ensures shown { AbortChain }
{}

/// A vote pass is cut off after the first Prepare: the transaction aborts, and nothing stays in doubt.
pub fn cut_pass()
    ensures shown { CutPass }
{}

/// The decision and the learning of it are cut off with their records kept: both restart, and the commit is ended.
pub fn cut_commit()
    ensures shown { CutCommit }
{}

/// A Commit that an earlier run left is told, learnt by the node that is in doubt, acknowledged by all that it names, and ended.
pub fn left_commit()
    ensures shown { LeftCommit }
{}

/// A vote that an earlier run left in doubt, with no Commit in the home's log, is aborted.
pub fn left_doubt()
    ensures shown { LeftDoubt }
{}
