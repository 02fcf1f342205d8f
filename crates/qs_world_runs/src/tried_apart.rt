//! What is still to be shown of who issued what stands, tried on the states of runs.
ghost use Rattle.std.specs.Global.{Global};
ghost use Rattle.qs_world_runs.specs.TriedApart.{TriedApart};

/// Where a request of a node stands at another one, of its present incarnation and of what is undecided, the node runs, is engaged, and waits for its
/// reply; and a reply that is on its way to a node that runs is of a number that it gave, which stands no more: after each step, and after a step
/// that was cut off and a restart.
pub fn issuers_are_engaged()
    ensures shown { (alloc : Global) → TriedApart alloc }
{}
