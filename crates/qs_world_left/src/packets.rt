//! The logs that a run of packets leaves.
ghost use Rattle.qs_world_left.specs.Packets.{EachRunCoherent, EachRunLeavesCoherent};

/// What begins over the logs that a run of packets leaves, whether its nodes run or not, each in an incarnation above its last, is what a run may begin
/// with; so those logs are coherent.
pub fn packet_runs_leave_coherent_logs()
    ensures next { EachRunCoherent }
    ensures logs { EachRunLeavesCoherent }
{}
