//! The history of every run of packets.
ghost use Rattle.qs_world_packets.specs.PacketLawful.{EachJournalLawful};

/// Whatever links lose, repeat, hold and reorder, and however nodes crash and restart, the journal
/// of each run is a lawful history of the reference machine.
pub fn journals_are_lawful()
    ensures { EachJournalLawful }
{}
