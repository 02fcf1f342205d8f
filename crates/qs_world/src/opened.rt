//! What runs begin with.
ghost use Rattle.std.specs.Global.{Global};
ghost use Rattle.qs_world.specs.Opened.{Opened};

/// The openings of the runs that are shown.
pub fn openings()
    ensures shown { (alloc : Global) → Opened alloc }
{}
