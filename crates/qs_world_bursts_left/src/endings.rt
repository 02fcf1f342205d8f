//! The end of a run.
ghost use Rattle.std.specs.Prelude.{List};
ghost use Rattle.std.specs.Global.{Global};
ghost use Rattle.qs_base.specs.declared.identifiers.NodeNo.{NodeNo};
ghost use Rattle.qs_book_script.specs.declared.script.Script.{Script};
ghost use Rattle.qs_world_bursts_left.specs.Endings.{CutLeavesAll, EndingsLeaveAll, RefusedLeavesAll};
ghost use Rattle.qs_world_rounds.specs.declared.rounds.Ending.{Ending};
ghost use Rattle.qs_world_sites.specs.Sites.{SitesValue};
ghost use Rattle.qs_world_sites.specs.declared.schedule.Schedule.{Schedule};

use qs_disk::Disk;
use qs_world_opening::what_fits_may_begin;
use qs_world_packets::journals_are_lawful;

/// Where a run of many nodes has begun with a script that fits, over coherent logs, it leaves the same by whichever schedule its rounds follow one another, serially or with a burst
/// before each, and whichever way it ends: quietly or with no rounds left, cut short as the disk of a node fails, or where memory is refused before a burst, in it, or in a
/// round. What its cells tell is a run of the world over packets and its history, which is lawful; its disks are coherent and stand for the machine after that; and where those that
/// were handed in had room, they have it.
pub fn runs_leave_all<D: Disk>()
    ensures ends { (alloc : Global) (script : Script) (disks : List D) (schedule : Schedule) (all new : SitesValue D) (ending : Ending) → EndingsLeaveAll D.told D.state D.fault_count D.byte_count alloc script disks schedule all new ending }
    ensures cut { (alloc : Global) (script : Script) (disks : List D) (schedule : Schedule) (node : NodeNo) (all new : SitesValue D) → CutLeavesAll D.told D.state D.fault_count D.byte_count alloc script disks schedule node all new }
    ensures refused { (alloc : Global) (script : Script) (disks : List D) (schedule : Schedule) (all new : SitesValue D) → RefusedLeavesAll D.told D.state D.fault_count D.byte_count alloc script disks schedule all new }
{
    what_fits_may_begin();
    journals_are_lawful();
}
