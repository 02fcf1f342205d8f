//! Room in the logs of all nodes.
ghost use Rattle.std.specs.Prelude.{ℕ, Bool, List};
ghost use Rattle.std.specs.Global.{Global};
ghost use Rattle.qs_base.specs.declared.identifiers.NodeNo.{NodeNo};
ghost use Rattle.qs_book_script.specs.declared.script.Script.{Script};
ghost use Rattle.qs_disk.specs.Disk.{DiskState};
ghost use Rattle.qs_link.specs.declared.outgoing.LinkFault.{LinkFault};
ghost use Rattle.qs_world.specs.World.{Opening};
ghost use Rattle.qs_world_one.specs.Rooms.{Began};
ghost use Rattle.qs_world_rooms.specs.Leaving.{CutShortLeavesRoom, EndingsLeaveRoom, RefusedLeavesRoom, RoundsLeaveRoom};
ghost use Rattle.qs_world_rooms.specs.Rooms.{BrokenRoundStaysRoomy, CarriesStayRoomy, RefusedRoundStaysRoomy, RoomyAreRead, RoundStaysRoomy, RoundsStayRoomy, VisitStaysRoomy, VisitsStayRoomy};
ghost use Rattle.qs_world_rounds.specs.Rounds.{Cast};
ghost use Rattle.qs_world_rounds.specs.declared.rounds.Ending.{Ending};
ghost use Rattle.qs_world_sites.specs.Sites.{SitesValue};
ghost use Rattle.rand_pcg.specs.Lcg.{Lcg};

use qs_disk::Disk;
use qs_world_opening::what_fits_may_begin;

/// What a read gives of disks with room has room, where it is one of the images of each.
pub fn roomy_disks_are_read()
    ensures { (sizes : List ℕ) (disks : List DiskState) → RoomyAreRead sizes disks }
{}

/// Nodes that have room in their logs for all that is kept there, in a world that a run may begin with, have it as lanes and links are carried, through visits
/// of any of them, so through rounds, also through one that is cut short as a disk fails, and through one in which memory was refused: each step finds room for its records and leaves as much as the next
/// may need, and each restart finds it again.
pub fn sites_stay_roomy<D: Disk>()
    ensures carries { (began : ℕ → Began) (old new : List (Cast D)) → CarriesStayRoomy D.state D.byte_count began old new }
    ensures visit { (o : Opening) (plans : ℕ → ℕ → List LinkFault) (began : ℕ → Began) (place : ℕ) (old new : SitesValue D) (did : Bool) → VisitStaysRoomy D.told D.state D.fault_count D.byte_count o plans began place old new did }
    ensures visits { (o : Opening) (plans : ℕ → ℕ → List LinkFault) (began : ℕ → Began) (places : List ℕ) (old new : SitesValue D) (did : Bool) → VisitsStayRoomy D.told D.state D.fault_count D.byte_count o plans began places old new did }
    ensures round { (o : Opening) (plans : ℕ → ℕ → List LinkFault) (began : ℕ → Began) (order : List ℕ) (old new : SitesValue D) (quiet : Bool) → RoundStaysRoomy D.told D.state D.fault_count D.byte_count o plans began order old new quiet }
    ensures rounds { (o : Opening) (plans : ℕ → ℕ → List LinkFault) (began : ℕ → Began) (rng later : Lcg) (n : ℕ) (old new : SitesValue D) → RoundsStayRoomy D.told D.state D.fault_count D.byte_count o plans began rng n old new later }
    ensures broken { (o : Opening) (plans : ℕ → ℕ → List LinkFault) (began : ℕ → Began) (order : List ℕ) (node : NodeNo) (old new : SitesValue D) → BrokenRoundStaysRoomy D.told D.state D.fault_count D.byte_count o plans began order node old new }
    ensures refused { (o : Opening) (plans : ℕ → ℕ → List LinkFault) (began : ℕ → Began) (order : List ℕ) (old new : SitesValue D) → RefusedRoundStaysRoomy D.told D.state D.fault_count D.byte_count o plans began order old new }
{}

/// Where a run of many nodes has begun with a script that fits, over coherent logs with room for all that is kept there, each image of each disk has a log
/// with that room after any rounds, as the rounds end, where one is cut short as a disk fails, and where memory was refused in one; and no node has stopped for
/// a full log.
pub fn runs_leave_room<D: Disk>()
    ensures rounds { (alloc : Global) (script : Script) (disks : List D) (rng later : Lcg) (n : ℕ) (all new : SitesValue D) → RoundsLeaveRoom D.told D.state D.fault_count D.byte_count alloc script disks rng n all new later }
    ensures ends { (alloc : Global) (script : Script) (disks : List D) (seed : ℕ) (all new : SitesValue D) (ending : Ending) → EndingsLeaveRoom D.told D.state D.fault_count D.byte_count alloc script disks seed all new ending }
    ensures cut { (alloc : Global) (script : Script) (disks : List D) (seed : ℕ) (node : NodeNo) (all new : SitesValue D) → CutShortLeavesRoom D.told D.state D.fault_count D.byte_count alloc script disks seed node all new }
    ensures refused { (alloc : Global) (script : Script) (disks : List D) (seed : ℕ) (all new : SitesValue D) → RefusedLeavesRoom D.told D.state D.fault_count D.byte_count alloc script disks seed all new }
{
    what_fits_may_begin();
}
