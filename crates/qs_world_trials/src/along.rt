//! What goes along a run beside what its machines and nodes have together, tried.
ghost use Rattle.std.specs.Global.{Global};
ghost use Rattle.qs_world_trials.specs.TriedAlong.{FailsAlong, TriedAlong};

/// In each world of these runs what the machine has on record is known at its node, last votes cover what logs say in doubt, each reply is of a request that stands
/// no more, what stands at another node is waited for, and at the only node of a run all that waits can be counted.
pub fn along_held_in_runs()
    ensures shown { (alloc : Global) → TriedAlong alloc }
{}

/// Each of these tests fails in a world that no run leads to.
pub fn along_may_fail()
    ensures shown { (alloc : Global) → FailsAlong alloc }
{}
