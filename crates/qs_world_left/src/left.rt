//! What a run leaves.
ghost use Rattle.std.specs.Prelude.{ℕ, List};
ghost use Rattle.std.specs.Global.{Global};
ghost use Rattle.qs_base.specs.declared.identifiers.NodeNo.{NodeNo};
ghost use Rattle.qs_book_script.specs.declared.script.Script.{Script};
ghost use Rattle.qs_link.specs.declared.outgoing.LinkFault.{LinkFault};
ghost use Rattle.qs_world.specs.World.{Opening};
ghost use Rattle.qs_world_left.specs.Left.{CellsLeaveCoherent, CellsLeaveLogs, CutShortFollows, CutShortLeavesCoherent, EndingsFollow, EndingsLeaveCoherent, RaisedStayCoherent, RefusedFollows, RefusedLeavesCoherent, RoundsFollow, RoundsLeaveCoherent, SitesLeaveCoherent, SitesLeaveLogs};
ghost use Rattle.qs_world_rounds.specs.Rounds.{Cast};
ghost use Rattle.qs_world_rounds.specs.declared.rounds.Ending.{Ending};
ghost use Rattle.qs_world_sites.specs.Sites.{SitesValue};
ghost use Rattle.rand_pcg.specs.Lcg.{Lcg};

use qs_disk::Disk;
use qs_world_opening::{logs_stay_coherent, what_fits_may_begin};

/// Sites in a world that a run may begin with leave their disks coherent, whether their nodes are up or down: whichever image a power cut leaves of each, the
/// logs of these images stand together, and another run may begin over them; and each image has a log. So they do after any rounds of a run that has begun with a script that fits
/// over coherent logs, as the rounds end, and where one is cut short as a disk fails.
pub fn runs_leave_coherent_disks<D: Disk>()
    ensures sites { (o : Opening) (plans : ℕ → ℕ → List LinkFault) (sites : List (Cast D)) → SitesLeaveCoherent D.told D.state o plans sites }
    ensures logs { (o : Opening) (plans : ℕ → ℕ → List LinkFault) (sites : List (Cast D)) → SitesLeaveLogs D.told D.state o plans sites }
    ensures rounds { (alloc : Global) (script : Script) (disks : List D) (rng later : Lcg) (n : ℕ) (all new : SitesValue D) → RoundsLeaveCoherent D.told D.state D.fault_count D.byte_count alloc script disks rng n all new later }
    ensures ends { (alloc : Global) (script : Script) (disks : List D) (seed : ℕ) (all new : SitesValue D) (ending : Ending) → EndingsLeaveCoherent D.told D.state D.fault_count D.byte_count alloc script disks seed all new ending }
    ensures cut { (alloc : Global) (script : Script) (disks : List D) (seed : ℕ) (node : NodeNo) (all new : SitesValue D) → CutShortLeavesCoherent D.told D.state D.fault_count D.byte_count alloc script disks seed node all new }
{
    what_fits_may_begin();
}

/// And so they do where memory was refused in a round of such a run, in whichever visit and within whichever step, since the cells of its sites still are where
/// their nodes have come to.
pub fn refused_runs_leave_coherent_disks<D: Disk>()
    ensures cells { (o : Opening) (plans : ℕ → ℕ → List LinkFault) (sites : List (Cast D)) → CellsLeaveCoherent D.told D.state o plans sites }
    ensures logs { (o : Opening) (plans : ℕ → ℕ → List LinkFault) (sites : List (Cast D)) → CellsLeaveLogs D.told D.state o plans sites }
    ensures refused { (alloc : Global) (script : Script) (disks : List D) (seed : ℕ) (all new : SitesValue D) → RefusedLeavesCoherent D.told D.state D.fault_count D.byte_count alloc script disks seed all new }
{
    what_fits_may_begin();
}

/// The logs that the nodes raise over contents that are coherent are coherent; so a run may follow a run: what it leaves is coherent where what it began over
/// was.
pub fn runs_follow_runs<D: Disk>()
    ensures raised { (alloc : Global) (script : Script) (disks : List D) (all : SitesValue D) → RaisedStayCoherent D.told D.state D.fault_count alloc script disks all }
    ensures rounds { (alloc : Global) (script : Script) (disks : List D) (rng later : Lcg) (n : ℕ) (all new : SitesValue D) → RoundsFollow D.told D.state D.fault_count D.byte_count alloc script disks rng n all new later }
    ensures ends { (alloc : Global) (script : Script) (disks : List D) (seed : ℕ) (all new : SitesValue D) (ending : Ending) → EndingsFollow D.told D.state D.fault_count D.byte_count alloc script disks seed all new ending }
    ensures cut { (alloc : Global) (script : Script) (disks : List D) (seed : ℕ) (node : NodeNo) (all new : SitesValue D) → CutShortFollows D.told D.state D.fault_count D.byte_count alloc script disks seed node all new }
    ensures refused { (alloc : Global) (script : Script) (disks : List D) (seed : ℕ) (all new : SitesValue D) → RefusedFollows D.told D.state D.fault_count D.byte_count alloc script disks seed all new }
{
    what_fits_may_begin();
    logs_stay_coherent();
}
