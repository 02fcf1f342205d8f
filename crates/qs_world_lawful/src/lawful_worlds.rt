//! Moves of the world against the machine: what the machine has of a whole world is had on through a move.
ghost use Rattle.qs_world_lawful.specs.CutLaws.{EachCutIsHeld, EachKeepsItsQuietBatch};
ghost use Rattle.qs_world_lawful.specs.CoherentOpenings.{EachOpensSoundly};
ghost use Rattle.qs_world_lawful.specs.WorldLaws.{EachLosesItsBatch, EachMeets, EachOpensHeld, EachRiseKeepsOthers, EachRises, EachStops};

/// A node that is down restarts, and begins an incarnation with what its log says: the entry is lawful, what it finds in its log with it;
/// and the machine after it has all that the node keeps then. What the log has committed is applied once, in order, and committed; what
/// is in doubt is pending again; what is volatile is empty; and of what began in the incarnation that ended, and was not decided, the machine
/// and what is kept for clients have the same outcome. What the machine has of every other node that runs it has then too.
pub fn restart_is_held()
    ensures rises { EachRises }
    ensures others { EachRiseKeepsOthers }
{}

/// A node gets to know a first incarnation of another: nothing is entered, and the machine has the world as before.
pub fn meeting_is_held()
    ensures meets { EachMeets }
{}

/// A node stops, in place of a step or in one whose batch is lost: the entry is lawful, and the machine after it has the whole world. What the
/// node's log says on the disk is what a restart of it will find: each vote is on record or was applied, each Commit was applied, and
/// nothing is new.
pub fn stop_is_held()
    ensures stops { EachStops }
    ensures cut { EachLosesItsBatch }
{}

/// And so it is in a step whose batch is kept, where that step forces nothing or has no record of its own; and in any that is cut off where the
/// machine has what the node's log says then, which is all that is left to show of it.
pub fn kept_cut_is_held()
    ensures quiet { EachKeepsItsQuietBatch }
    ensures said { EachCutIsHeld }
{}

/// What the logs of an opening hold is coherent: each transaction that a log names began in an earlier incarnation of its home, and no log
/// has a vote in doubt of a transaction that it has committed.
pub fn opening_is_coherent()
    ensures sound { EachOpensSoundly }
{}

/// As a run begins the machine has the whole world that begins: each node with the votes that stand in doubt in its log, the Commits that it
/// still has to tell, and what its log has committed; with what the log says of contents and changes; and nothing for clients.
pub fn opening_is_held()
    ensures held { EachOpensHeld }
{}
