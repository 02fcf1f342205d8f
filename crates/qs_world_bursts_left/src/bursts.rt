//! Room through bursts, and through rounds behind them.
ghost use Rattle.std.specs.Prelude.{ℕ, Bool, List};
ghost use Rattle.std.specs.Global.{Global};
ghost use Rattle.qs_book_script.specs.declared.script.Script.{Script};
ghost use Rattle.qs_link.specs.declared.outgoing.LinkFault.{LinkFault};
ghost use Rattle.qs_world.specs.World.{Opening};
ghost use Rattle.qs_world_bursts_left.specs.Rooms.{BurstStaysRoomy, RefusedBurstStaysRoomy, RoundBehindStaysRoomy, RoundsBehindLeaveRoom, RoundsBehindStayRoomy};
ghost use Rattle.qs_world_one.specs.Rooms.{Began};
ghost use Rattle.qs_world_rounds.specs.Rounds.{Cast};
ghost use Rattle.qs_world_sites.specs.Sites.{SitesValue};

use qs_disk::Disk;
use qs_world_opening::what_fits_may_begin;

/// Nodes that have room in their logs for all that is kept there, in a world that a run may begin with, have it through a burst, whatever order in time their turns fall in, also
/// one in which memory was refused; and so through rounds behind bursts. No node waits for another to find room: a command that comes amid a burst begins what is new to its
/// node, since what the node has taken by then was put by others in steps with lesser stamps.
pub fn bursts_stay_roomy<D: Disk>()
    ensures burst { (o : Opening) (plans : ℕ → ℕ → List LinkFault) (began : ℕ → Began) (turns : ℕ) (old mid new : List (Cast D)) → BurstStaysRoomy D.told D.state D.fault_count D.byte_count o plans began turns old mid new }
    ensures refused { (o : Opening) (plans : ℕ → ℕ → List LinkFault) (began : ℕ → Began) (turns : ℕ) (old new : List (Cast D)) → RefusedBurstStaysRoomy D.told D.state D.fault_count D.byte_count o plans began turns old new }
    ensures round { (o : Opening) (plans : ℕ → ℕ → List LinkFault) (began : ℕ → Began) (turns : ℕ) (order : List ℕ) (old new : SitesValue D) (quiet : Bool) → RoundBehindStaysRoomy D.told D.state D.fault_count D.byte_count o plans began turns order old new quiet }
    ensures rounds { (o : Opening) (plans : ℕ → ℕ → List LinkFault) (began : ℕ → Began) (turns n : ℕ) (old new : SitesValue D) → RoundsBehindStayRoomy D.told D.state D.fault_count D.byte_count o plans began turns n old new }
{}

/// Where a run of many nodes has begun with a script that fits, over coherent logs with room for all that is kept there, each image of each disk has a log with that room after
/// any rounds with bursts before them, and no node has stopped for a full log.
pub fn rounds_behind_bursts_leave_room<D: Disk>()
    ensures { (alloc : Global) (script : Script) (disks : List D) (turns n : ℕ) (all new : SitesValue D) → RoundsBehindLeaveRoom D.told D.state D.fault_count D.byte_count alloc script disks turns n all new }
{
    what_fits_may_begin();
}
