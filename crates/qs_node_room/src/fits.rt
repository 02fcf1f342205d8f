//! Each step fits.
ghost use Rattle.qs_node_room.specs.Fits.{EachStepFits};

/// The records of each step fit into what is free and what is kept.
pub fn steps_fit()
    ensures { EachStepFits }
{}
