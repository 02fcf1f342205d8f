//! What a step enters of files.
ghost use Rattle.qs_world_filed.specs.Settings.{MovesKeepSet, OpensSet, StepsAsSet};
ghost use Rattle.qs_world_filed.specs.Sizes.{StepsFit};

/// A step refuses with the quota of its node and sends notes to its audit node, where its files have that quota (`steps`). They have it as a run begins (`opens`), and after
/// each move (`moves`).
pub fn steps_say_what_is_set()
    ensures steps { StepsAsSet }
    ensures opens { OpensSet }
    ensures moves { MovesKeepSet }
{}

/// In each step of a run a vote of files for commit, and one that refuses for want of room, is within the quota, or its transaction is crossed there: the machine has what the
/// files hold at each vote.
pub fn steps_keep_quotas()
    ensures { StepsFit }
{}
