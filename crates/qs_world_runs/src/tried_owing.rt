//! What runs are to keep, tried on their states: of what nodes owe, and of votes in a step that is cut off.
ghost use Rattle.std.specs.Global.{Global};
ghost use Rattle.qs_world_runs.specs.TriedOwing.{TriedOwing};
ghost use Rattle.qs_world_runs.specs.TriedStale.{TriedStale};

/// Where a node waits for something of another one, of what it has not decided, a request to that one stands open in the history, and what a node
/// waits for stands there as it is to: after each step, and after a restart, until others have noticed it.
pub fn owed_stands_open()
    ensures shown { (alloc : Global) → TriedOwing alloc }
{}

/// What a restart does not find is on record no more: a node that got to know a transaction anew, after it had learnt its abort and ended its records, and
/// voted again with as many covers in a step that is cut off with its batch kept, has the changes of this vote pending, and so has the machine.
pub fn a_stale_record_is_forgotten()
    ensures shown { (alloc : Global) → TriedStale alloc }
{}
