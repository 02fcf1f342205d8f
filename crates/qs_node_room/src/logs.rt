//! Each step finds room in its log.
ghost use Rattle.qs_node_room.specs.Logs.{EachStepLogs};

/// A log that has room for what it keeps has room for each record of a step of its node, and for what it keeps then.
pub fn steps_find_room()
    ensures { EachStepLogs }
{}
