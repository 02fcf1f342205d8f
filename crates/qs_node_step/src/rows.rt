//! Short runs of one node, so that what is said of its step is not empty.
ghost use Rattle.std.specs.Global.{Global};
ghost use Rattle.qs_node_step.specs.Rows.{Rows};

/// A node that is drawn in by two others, votes and is told; one that restarts in doubt; and a home that is asked for
/// what runs, and tells whom it hears of.
pub fn short_runs()
    ensures shown { (alloc : Global) → Rows alloc }
{}
