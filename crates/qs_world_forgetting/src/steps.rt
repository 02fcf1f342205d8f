//! Steps of a node.
ghost use Rattle.qs_world_forgetting.specs.Knowing.{EachStepIsSame};

/// A step of a node does the same, whatever Commits the node knows of from its log, and leaves a node that is the same but for these: where it is asked
/// about a transaction of which it keeps nothing else, that one has to be among both or neither.
pub fn steps_are_the_same()
    ensures { EachStepIsSame }
{}
