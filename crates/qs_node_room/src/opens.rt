//! A node opens over its log.
ghost use Rattle.qs_node_room.specs.Opens.{EachOpens, EachIsShort, EachLogIsShort};

/// A node that opens over a log knows of it what the log keeps.
pub fn nodes_open_so()
    ensures { EachOpens }
{}

/// A record that has a spelling names at most 16 nodes.
pub fn records_are_short()
    ensures { EachIsShort }
{}

/// So does each record of a log on a disk.
pub fn logs_are_short()
    ensures { EachLogIsShort }
{}
