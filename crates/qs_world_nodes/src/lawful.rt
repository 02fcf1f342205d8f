//! What is told of a run of many nodes, as a history.
ghost use Rattle.std.specs.Prelude.{ℕ, List};
ghost use Rattle.std.specs.Global.{Global};
ghost use Rattle.qs_base.specs.declared.identifiers.NodeNo.{NodeNo};
ghost use Rattle.qs_book_journal.specs.declared.entry.Entry.{Entry};
ghost use Rattle.qs_book_script.specs.declared.script.Script.{Script};
ghost use Rattle.qs_node_step.specs.declared.trace.Step.{Step};
ghost use Rattle.qs_world_nodes.specs.Lawful.{CutShortIsLawful, EndingsAreLawful, NodesMayBegin, RefusedIsLawful, RoundsAreLawful};
ghost use Rattle.qs_world_rounds.specs.declared.rounds.Ending.{Ending};
ghost use Rattle.qs_world_sites.specs.Sites.{SitesValue};
ghost use Rattle.rand_pcg.specs.Lcg.{Lcg};

use qs_disk::Disk;
use qs_world_opening::what_fits_may_begin;
use qs_world_packets::journals_are_lawful;

/// A run of the world may begin with a script that fits, over the logs that the nodes raised as they began, where these are coherent.
pub fn nodes_may_begin<D: Disk>()
    ensures { (alloc : Global) (script : Script) (disks : List D) (all : SitesValue D) → NodesMayBegin D.told D.state D.fault_count alloc script disks all }
{
    what_fits_may_begin();
}

/// So what all cells tell after any rounds, merged by stamp and node, is a lawful history of the reference machine, which begins with what those logs had; as
/// the rounds end too, where one is cut short as a disk fails, and where memory is refused in one.
pub fn rounds_are_lawful<D: Disk>()
    ensures rounds { (alloc : Global) (script : Script) (disks : List D) (rng later : Lcg) (n : ℕ) (all new : SitesValue D) (journal : List Entry) (trace : List Step)
        → RoundsAreLawful D.told D.state D.fault_count D.byte_count alloc script disks rng n all new later journal trace }
    ensures ends { (alloc : Global) (script : Script) (disks : List D) (seed : ℕ) (all new : SitesValue D) (ending : Ending) (journal : List Entry) (trace : List Step)
        → EndingsAreLawful D.told D.state D.fault_count D.byte_count alloc script disks seed all new ending journal trace }
    ensures cut { (alloc : Global) (script : Script) (disks : List D) (seed : ℕ) (node : NodeNo) (all new : SitesValue D) (journal : List Entry) (trace : List Step)
        → CutShortIsLawful D.told D.state D.fault_count D.byte_count alloc script disks seed node all new journal trace }
    ensures refused { (alloc : Global) (script : Script) (disks : List D) (seed : ℕ) (all new : SitesValue D) (journal : List Entry) (trace : List Step)
        → RefusedIsLawful D.told D.state D.fault_count D.byte_count alloc script disks seed all new journal trace }
{
    what_fits_may_begin();
    journals_are_lawful();
}
