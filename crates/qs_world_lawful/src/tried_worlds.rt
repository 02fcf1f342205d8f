//! What is held of whole worlds, tried on the states of runs.
ghost use Rattle.std.specs.Global.{Global};
ghost use Rattle.qs_world_lawful.specs.TriedAside.{TriedAside};
ghost use Rattle.qs_world_lawful.specs.TriedOpenings.{TriedOpenings};
ghost use Rattle.qs_world_lawful.specs.TriedWorlds.{TriedWorlds};

/// What the machine and a whole world hold alike holds after each step of these runs, with a node down, and after its restart.
pub fn worlds_held_in_runs()
    ensures shown { (alloc : Global) → TriedWorlds alloc }
{}

/// It holds of a world that begins over old logs too, from its beginning on, with votes in doubt, and Commits that are still to be told.
pub fn openings_held_in_runs()
    ensures shown { (alloc : Global) → TriedOpenings alloc }
{}

/// What the entries of one node have to find at another holds in these runs: the notes that files issued are noted or waited for, and what is
/// unanimous at a home that is down stays so.
pub fn others_held_in_runs()
    ensures shown { (alloc : Global) → TriedAside alloc }
{}
