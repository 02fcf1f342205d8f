//! Restarts over logs that have less.
ghost use Rattle.qs_world_forgetting.specs.Rising.{EachRestartIsSame, EachRisesSame};
ghost use Rattle.qs_world_forgetting.specs.ThinRestarts.{EachThinRestart};

/// A restart that finds nothing of what is over is lawful where one that finds all is, and does the same: where nothing of it is on record at the node, no
/// cell of it is open there, and no vote of it is new.
pub fn thin_restarts_do_the_same()
    ensures { EachThinRestart }
{}

/// So is a restart over a log that reads like another, with the lists that a restart finds there.
pub fn restarts_are_the_same()
    ensures { EachRestartIsSame }
{}

/// The node that rises over a log that reads like another is the same but for the Commits that it knows of, where what it keeps for its clients has the
/// outcome of each transaction that is over.
pub fn nodes_rise_the_same()
    ensures { EachRisesSame }
{}
