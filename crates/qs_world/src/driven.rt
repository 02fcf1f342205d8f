//! Runs of scripts under a driver.
ghost use Rattle.std.specs.Global.{Global};
ghost use Rattle.qs_world.specs.DrivenRuns.{LateJoin, Taken};
ghost use Rattle.qs_world.specs.Faults.{BothFaults, LateFaults};

/// Three nodes: a borrower joins while commit runs.
pub fn late_join()
    ensures shown { (alloc : Global) → LateJoin alloc }
{}

/// Two nodes that commit a file each, with each of them cut off at each of many moments.
pub fn both_faults()
    ensures shown { (alloc : Global) → BothFaults alloc }
{}

/// Three nodes and a late borrower, with each node cut off at each of many moments.
pub fn late_faults()
    ensures shown { (alloc : Global) → LateFaults alloc }
{}

/// One node: a name that another transaction bound.
pub fn taken()
    ensures shown { (alloc : Global) → Taken alloc }
{}
