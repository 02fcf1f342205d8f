//! Whole runs of packets, so that what is said of every run is not empty.
ghost use Rattle.std.specs.Global.{Global};
ghost use Rattle.qs_world_packets.specs.PacketPlays.{EachPlayRuns};
ghost use Rattle.qs_world_packets.specs.PacketRows.{RowGone, RowRemote, RowReordered};

/// What is told by the places of packets among those that were sent is a run.
pub fn plays()
    ensures runs { EachPlayRuns }
{}

/// Two nodes that greet each other while a request waits: a file is put at the other, and committed, with packets that come twice and late.
pub fn row_remote()
    ensures shown { (alloc : Global) → RowRemote alloc }
{}

/// Two nodes: the other restarts before its vote, and packets for and of its earlier incarnation come.
pub fn row_gone()
    ensures shown { (alloc : Global) → RowGone alloc }
{}

/// Two nodes with two requests on their way: the later one comes first, and so does its reply; then the other node restarts.
pub fn row_reordered()
    ensures shown { (alloc : Global) → RowReordered alloc }
{}
