//! What a run of packets gives each node.
ghost use Rattle.qs_world_rooms.specs.Packets.{EachRunBeginsNew, EachRunIsNamed};

/// In each world that a run of packets comes to, what a client begins at a node that is up is not known to the node, and what the log of each node says
/// is of transactions. So a step finds room for its records, and a restart knows what is kept.
pub fn packet_runs_leave_room()
    ensures begins { EachRunBeginsNew }
    ensures named { EachRunIsNamed }
{}
