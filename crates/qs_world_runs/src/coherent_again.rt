//! The logs that a run leaves stand together, so that another run may begin over them.
ghost use Rattle.qs_world_runs.specs.AlongRun.{AlongRun};
ghost use Rattle.qs_world_runs.specs.JoinedPlaces.{PlacesAt};
ghost use Rattle.qs_world_runs.specs.OwnChanges.{EachHasOwnChanges};
ghost use Rattle.qs_world_runs.specs.StandsFor.{EachLogStandsFor};
ghost use Rattle.qs_world_runs.specs.CoherentAgain.{EachCommitsHome, EachRunCoherent, EachRunMayFollow, HomeLogged, StepCommitsHome};

/// What a home has committed, and the log of another node has in doubt, the log of the home has committed.
pub fn homes_log_commits()
    ensures logged { HomeLogged }
    ensures steps { StepCommitsHome PlacesAt }
    ensures runs { EachCommitsHome }
{}

/// Servers whose votes a log keeps have only changes of their own pending, and so has each of their votes in a log, in each world of a run.
pub fn votes_have_own_changes()
    ensures { EachHasOwnChanges }
{}

/// The logs that a run leaves stand together, whether its nodes run or not, and also right after a step that was cut off, with its batch lost or
/// kept: another run may begin over them, with later incarnations of its nodes. So after each run another may follow, of the same nodes and clients.
pub fn runs_leave_openings()
    ensures next { EachRunCoherent }
    ensures follows { EachRunMayFollow }
{}

/// The log of a node stands for what the machine has of it at each moment of a run: where the node stops in place of a step, or within one, with
/// its batch lost or kept, and restarts, both entries are lawful, and what the restart takes up, of contents, changes, votes and clients, is what
/// the machine has.
pub fn logs_stand_for_states()
    ensures { EachLogStandsFor AlongRun }
{}
