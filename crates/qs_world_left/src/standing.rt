//! What the logs that a run leaves stand for.
ghost use Rattle.std.specs.Prelude.{ℕ, List};
ghost use Rattle.std.specs.Global.{Global};
ghost use Rattle.qs_base.specs.declared.identifiers.NodeNo.{NodeNo};
ghost use Rattle.qs_book_journal.specs.declared.entry.Entry.{Entry};
ghost use Rattle.qs_book_script.specs.declared.script.Script.{Script};
ghost use Rattle.qs_link.specs.declared.outgoing.LinkFault.{LinkFault};
ghost use Rattle.qs_node_step.specs.declared.trace.Step.{Step};
ghost use Rattle.qs_world.specs.World.{Opening};
ghost use Rattle.qs_world_left.specs.Standing.{CellsLeaveStanding, CutShortLeavesStanding, EachRunStands, EachRunStandsAlone, EndingsLeaveStanding, RefusedLeavesStanding, RoundsLeaveStanding, SitesLeaveStanding};
ghost use Rattle.qs_world_rounds.specs.Rounds.{Cast};
ghost use Rattle.qs_world_rounds.specs.declared.rounds.Ending.{Ending};
ghost use Rattle.qs_world_sites.specs.Sites.{SitesValue};
ghost use Rattle.rand_pcg.specs.Lcg.{Lcg};

use qs_disk::Disk;
use qs_world_opening::what_fits_may_begin;

/// The log of each node of a run of packets stands for the machine after its journal: the node may stop where it is up, and restart over it in a later
/// incarnation, and the machine has of it then what the log says; in a run of one node all of files and audit, with pending changes and locks.
pub fn packet_runs_leave_standing_logs()
    ensures each { EachRunStands }
    ensures alone { EachRunStandsAlone }
{}

/// Whichever image a power cut leaves of the disk of a node of a run, its log stands for the machine after all that the cells tell, merged, whether the node is
/// up or down, if no other node has made a step with the last stamp. That of the only node of a run does with pending changes and locks.
pub fn runs_leave_standing_disks<D: Disk>()
    ensures sites { (o : Opening) (plans : ℕ → ℕ → List LinkFault) (sites : List (Cast D)) (journal : List Entry) (trace : List Step) → SitesLeaveStanding D.told D.state o plans sites journal trace }
    ensures rounds { (alloc : Global) (script : Script) (disks : List D) (rng later : Lcg) (n : ℕ) (all new : SitesValue D) (journal : List Entry) (trace : List Step)
        → RoundsLeaveStanding D.told D.state D.fault_count D.byte_count alloc script disks rng n all new later journal trace }
    ensures ends { (alloc : Global) (script : Script) (disks : List D) (seed : ℕ) (all new : SitesValue D) (ending : Ending) (journal : List Entry) (trace : List Step)
        → EndingsLeaveStanding D.told D.state D.fault_count D.byte_count alloc script disks seed all new ending journal trace }
    ensures cut { (alloc : Global) (script : Script) (disks : List D) (seed : ℕ) (node : NodeNo) (all new : SitesValue D) (journal : List Entry) (trace : List Step)
        → CutShortLeavesStanding D.told D.state D.fault_count D.byte_count alloc script disks seed node all new journal trace }
{
    what_fits_may_begin();
}

/// And so it does where memory was refused in a round of the run, in whichever visit and within whichever step.
pub fn refused_runs_leave_standing_disks<D: Disk>()
    ensures cells { (o : Opening) (plans : ℕ → ℕ → List LinkFault) (sites : List (Cast D)) (journal : List Entry) (trace : List Step) → CellsLeaveStanding D.told D.state o plans sites journal trace }
    ensures refused { (alloc : Global) (script : Script) (disks : List D) (seed : ℕ) (all new : SitesValue D) (journal : List Entry) (trace : List Step)
        → RefusedLeavesStanding D.told D.state D.fault_count D.byte_count alloc script disks seed all new journal trace }
{
    what_fits_may_begin();
}
