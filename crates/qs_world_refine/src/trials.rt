//! What is said of each node between its steps, tried on whole runs.
ghost use Rattle.std.specs.Global.{Global};
ghost use Rattle.qs_world_refine.specs.SoundRuns.{SoundRuns};

/// Nodes are sound after each stage of whole runs, also where one is cut off and restarts.
pub fn sound_runs()
    ensures shown { (alloc : Global) → SoundRuns alloc }
{}
