//! What the reference machine, the agreement machine and the nodes have together, tried.
ghost use Rattle.std.specs.Global.{Global};
ghost use Rattle.qs_world_trials.specs.TriedJoined.{FailsJoined, TriedJoined};

/// In each world of these runs each node has its facts, its clock and its log's Commits, what it knows has begun, its servers have room, and its clients are its own; and the
/// machine has owners, labels and homes as the nodes do, and nothing waits that it does not know.
pub fn joined_held_in_runs()
    ensures shown { (alloc : Global) → TriedJoined alloc }
{}

/// Each of these tests fails in a world that no run leads to.
pub fn joined_may_fail()
    ensures shown { (alloc : Global) → FailsJoined alloc }
{}
