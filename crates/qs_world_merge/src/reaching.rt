//! How far a node has come by itself.
ghost use Rattle.qs_world_merge.specs.Reaching.{EachBegins, EachGoesOn, EachMayCut, EachMayMeet, EachMayRise, EachMayStep, EachMayStop, EachMayTick, EachReachedLocally, EachReachedUpTo};

/// A node's local run begins where the run of all does; one more step, each of whose moves may be made where the node has come to, makes it longer; no
/// step of it has a greater stamp than the last; and what is observed of the node is what it did in that run.
pub fn local_runs_go_on()
    ensures begins { EachBegins }
    ensures goes_on { EachGoesOn }
    ensures up_to { EachReachedUpTo }
    ensures local { EachReachedLocally }
{}

/// Where a node has come to, each kind of move of a later stamp may be made, as far as the node itself goes.
pub fn moves_may_be_made()
    ensures steps { EachMayStep }
    ensures cuts { EachMayCut }
    ensures stops { EachMayStop }
    ensures rises { EachMayRise }
    ensures meets { EachMayMeet }
    ensures ticks { EachMayTick }
{}
