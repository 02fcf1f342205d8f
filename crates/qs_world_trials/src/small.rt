//! The small runs of tools/broken-rules.
ghost use Rattle.std.specs.Global.{Global};
ghost use Rattle.qs_world_trials.specs.SmallRuns.{SmallRuns};

/// As the rules stand each of them is lawful, and the next run may begin over the logs that one of them leaves.
pub fn small_runs_are_lawful()
    ensures shown { (alloc : Global) → SmallRuns alloc }
{}
