//! What the only node of a run has served and has waiting has numbers that were given, and no transaction is crossed there.
ghost use Rattle.qs_world_runs.specs.AlongRun.{AlongRun};
ghost use Rattle.qs_world_runs.specs.Counted.{EachCountsAlone, MovesKeepCounted, OpensCounted};
ghost use Rattle.qs_world_runs.specs.Uncrossed.{EachUncrossedAlone};

/// At the only node of a run each server has served and has waiting of a transaction no more than numbers were given to its requests: so it is as a run begins,
/// and after each move. So what waits there can be counted at each moment, and such a node is never stopped in place of serving it.
pub fn what_waits_alone_has_numbers()
    ensures opens { OpensCounted }
    ensures moves { MovesKeepCounted AlongRun }
    ensures serves { EachCountsAlone AlongRun }
{}

/// So no transaction is crossed in a run of one node: requests get numbers in the incarnation alone in which their transaction began, each of them another.
pub fn nothing_crosses_alone()
    ensures { EachUncrossedAlone }
{}
