//! Entries of the reference machine.
ghost use Rattle.qs_world_forgetting.specs.BookCommits.{EachEntryIsSame, EachStretchIsSame};

/// An entry that is no restart breaks the same clause or none, and does the same, whatever Commits the logs of the nodes held as the run began; and
/// so does a stretch of such entries.
pub fn entries_are_the_same()
    ensures one { EachEntryIsSame }
    ensures stretch { EachStretchIsSame }
{}
