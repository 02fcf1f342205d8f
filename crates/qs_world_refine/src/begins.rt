//! A transaction whose number is still to be given, and the move in which it begins.
ghost use Rattle.qs_world_refine.specs.BeginLaws.{UnbegunUnseen, UnbegunShown, PassedShown, EachBegins};
ghost use Rattle.qs_world_refine.specs.ShownWorlds.{EachBegunShown};
ghost use Rattle.qs_world_refine.specs.LeftLaws.{LeftShown, LeftReopens, LeftLawful, LeftPlaced, OpeningLeft, OpeningShown, StartAllShown, OutsideForeign};

/// Until its home has given a transaction its number nothing is seen of it, and the agreement machine at its start shows it; after
/// each move that is still so, or what that start leads to shows it.
pub fn each_begins()
    ensures unseen { UnbegunUnseen }
    ensures shown { UnbegunShown }
    ensures passed { PassedShown }
    ensures moves { EachBegins }
    ensures worlds { EachBegunShown }
{}

/// Where nothing but logs speaks of a transaction of an earlier incarnation of its home, the agreement machine begins over them, shows
/// it, and all its laws hold from there.
pub fn lefts()
    ensures shown { LeftShown }
    ensures reopens { LeftReopens }
    ensures lawful { LeftLawful }
    ensures placed { LeftPlaced }
{}

/// So it is where a world begins: of each transaction of an earlier incarnation of its home, in doubt, still to be told or aborted, the
/// machine over the logs shows all that nodes have and know.
pub fn openings()
    ensures left { OpeningLeft }
    ensures shown { OpeningShown }
    ensures all { StartAllShown }
{}

/// Of a transaction whose home is not in the run nodes of the run say nothing to each other.
pub fn outsiders()
    ensures foreign { OutsideForeign }
{}
