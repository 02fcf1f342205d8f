//! What is held of nodes, tried on the states of whole runs.
ghost use Rattle.std.specs.Global.{Global};
ghost use Rattle.qs_world_lawful.specs.Tried.{Tried};
ghost use Rattle.qs_world_lawful.specs.TriedGiven.{TriedGiven};
ghost use Rattle.qs_world_lawful.specs.TriedStages.{TriedStages};

/// What the machine and each node hold alike holds after each step of these runs, and after steps that were cut off and
/// restarts; without its history a state fails.
pub fn held_in_runs()
    ensures shown { (alloc : Global) → Tried alloc }
{}

/// What a step is given stands after each step of these runs too, and after steps that were cut off and restarts.
pub fn given_in_runs()
    ensures shown { (alloc : Global) → TriedGiven alloc }
{}

/// And it stands at each stage within these steps: as the event came, after each rule of settling, and after each command.
pub fn given_at_stages()
    ensures shown { (alloc : Global) → TriedStages alloc }
{}
