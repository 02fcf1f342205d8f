//! A whole step is a walk of deeds.
ghost use Rattle.qs_world_walk.specs.Walked.{EachStepIsDeeds};

/// Whatever comes to a node, its step is a walk of deeds, each at its stage and where it may be done.
pub fn step_is_deeds()
    ensures { EachStepIsDeeds }
{}
