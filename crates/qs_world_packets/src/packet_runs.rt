//! Every run of packets is a run of channels.
ghost use Rattle.qs_world_packets.specs.PacketAgrees.{EachRunAgrees, EachRunTells, EachRunTellsLearners};
ghost use Rattle.qs_world_packets.specs.PacketLaws.{EachMoveGoes, EachOpensAlike, EachRunLawful, EachRunShown};

/// Each move of the world over packets is a list of moves of the world of ordered channels, each of which may be made there; so each run of packets is a
/// run of that world, from an opening that is the same for every node of the run. What holds of every run there holds of every run of packets: where the
/// histories there are lawful, its journal is.
pub fn every_run()
    ensures moves { EachMoveGoes }
    ensures opens { EachOpensAlike }
    ensures runs { EachRunShown }
    ensures lawful { EachRunLawful }
{}

/// Whatever links lose, repeat, hold and reorder, and however nodes crash and restart: nobody knows a commit where another knows an abort; and nobody
/// who is in doubt, or is to learn the outcome, is forgotten.
pub fn nodes_agree()
    ensures agrees { EachRunAgrees }
    ensures tells { EachRunTells }
    ensures learners { EachRunTellsLearners }
{}
