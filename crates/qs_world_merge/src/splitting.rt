//! A run of all nodes, split.
ghost use Rattle.qs_world_merge.specs.SplitRuns.{EachRunSplits};

/// Each run of the world over packets in which a step answers clients of its node alone, told with the stamps of its steps, is the merge of local runs:
/// these leave out nothing.
pub fn runs_split()
    ensures { EachRunSplits }
{}
