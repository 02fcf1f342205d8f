//! Whole runs, so that what is said of every run is not empty.
ghost use Rattle.std.specs.Global.{Global};
ghost use Rattle.qs_world.specs.OneNode.{RowCommit, RowAbort, RowVolatile, RowCut};
ghost use Rattle.qs_world.specs.TwoNodes.{RowRemote, RowGone, RowDoubt};

/// One node: a transaction puts a file and is committed.
pub fn row_commit()
    ensures shown { (alloc : Global) → RowCommit alloc }
{}

/// One node: a transaction puts a file and is aborted by its owner.
pub fn row_abort()
    ensures shown { (alloc : Global) → RowAbort alloc }
{}

/// One node: timers, windows and scratch are told of an abort, and of a commit.
pub fn row_volatile()
    ensures shown { (alloc : Global) → RowVolatile alloc }
{}

/// One node: the decision is cut off, and its batch is on the disk or not.
pub fn row_cut()
    ensures shown { (alloc : Global) → RowCut alloc }
{}

/// Two nodes: a file is put at the other, and committed.
pub fn row_remote()
    ensures shown { (alloc : Global) → RowRemote alloc }
{}

/// Two nodes: the other stops before its vote.
pub fn row_gone()
    ensures shown { (alloc : Global) → RowGone alloc }
{}

/// Two nodes: the other stops before it learns.
pub fn row_doubt()
    ensures shown { (alloc : Global) → RowDoubt alloc }
{}
