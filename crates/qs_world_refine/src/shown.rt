//! Worlds in which each transaction that has begun is shown, so that a move asks nothing.
ghost use Rattle.qs_world_refine.specs.CommitLaws.{OffIdle, CommitIdle, CommitClear, CommitUnmet};
ghost use Rattle.qs_world_refine.specs.CutLaws.{StopGoesAlone, CutGoesAlone, CutGoesKept};
ghost use Rattle.qs_world_refine.specs.MeetLaws.{MeetGoesAlone};
ghost use Rattle.qs_world_refine.specs.Listed.{StartListed, MoveListed, SteadyGives};
ghost use Rattle.qs_world_refine.specs.ShownWorlds.{ShownFit, ShownGives, ShownGoes, BegunStays, MoveShown, RunShown, ShownRunGoes};

/// Whom a Commit in its log names the node that knows the commit is to tell, where a world begins over logs that a restart can
/// take up whole, and after each move. So all holds of nodes, logs and channels that the law of a move asks of them.
pub fn lists()
    ensures start { StartListed }
    ensures moves { MoveListed }
    ensures gives { SteadyGives }
{}

/// Where each transaction that has begun is shown, whatever message comes fits, and is what the agreement machine has; so a move
/// goes on to show each, with no premise.
pub fn moves()
    ensures fit { ShownFit }
    ensures gives { ShownGives }
    ensures goes { ShownGoes }
    ensures begun { BegunStays }
{}

/// So it is after a move, where those that begin in it are shown then; and if they are in each move, over any run.
pub fn runs()
    ensures moved { MoveShown }
    ensures shown { RunShown }
    ensures goes { ShownRunGoes }
{}

/// A node stops. Where nothing of a step is kept of a transaction, its place had what it had before the step; where a record of it is on
/// the disk, it is committed, or never will be: its place died engaged, or abort was decided.
pub fn stops()
    ensures alone { StopGoesAlone }
    ensures lost { CutGoesAlone }
    ensures kept { CutGoesKept }
{}

/// A node gets to know a first incarnation of another: its place knows that place then and has all put for it that it had sent, and nothing else
/// happens.
pub fn meets()
    ensures { MeetGoesAlone }
{}

/// A node that is not engaged is idle for what it has not decided: nothing waits there, nothing is lent, and no vote is due. Once commit
/// is decided none is engaged, and no request is on its way to a node that runs, nor kept back for one that is not known.
pub fn commits()
    ensures off { OffIdle }
    ensures idle { CommitIdle }
    ensures clear { CommitClear }
    ensures unmet { CommitUnmet }
{}
