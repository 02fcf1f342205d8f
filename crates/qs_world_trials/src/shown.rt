//! What the agreement machine shows of each transaction, tried.
ghost use Rattle.std.specs.Global.{Global};
ghost use Rattle.qs_world_trials.specs.TriedShown.{FailsShown, TriedShown};

/// In each world of these runs nodes, logs and channels are as the law of each move asks; and beside four runs, with a commit that two nodes learn, one that one of two
/// learns, a node that restarts in doubt while a client has a loan, and an abort, the agreement machine goes from world to world by its events and shows the transaction in
/// each; where it is to do something, it does not show the next one as it stands.
pub fn shown_held_in_runs()
    ensures shown { (alloc : Global) → TriedShown alloc }
{}

/// Each of these tests fails in a world that no run leads to.
pub fn shown_may_fail()
    ensures shown { (alloc : Global) → FailsShown alloc }
{}
