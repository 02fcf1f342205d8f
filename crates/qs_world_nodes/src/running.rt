//! All sites of a run, in the world over packets.
ghost use Rattle.std.specs.Prelude.{ℕ, Bool, List};
ghost use Rattle.std.specs.Global.{Global};
ghost use Rattle.qs_base.specs.declared.identifiers.NodeNo.{NodeNo};
ghost use Rattle.qs_book_script.specs.declared.script.Script.{Script};
ghost use Rattle.qs_link.specs.declared.outgoing.LinkFault.{LinkFault};
ghost use Rattle.qs_world.specs.World.{Opening};
ghost use Rattle.qs_world_nodes.specs.Running.{BrokenRoundKeeps, CarriesKeep, CellsAreTraced, CutShortIsTraced, EndingsAreTraced, NodesBegin, RefusedIsTraced, RefusedRoundLeaves, RoundKeeps, RoundsAreTraced, RoundsKeep, SitesAreTraced, SitesHaveCells, VisitKeeps, VisitsKeep};
ghost use Rattle.qs_world_nodes.specs.Openings.{NodesHaveOpening, ReadSitOnce};
ghost use Rattle.qs_world_rounds.specs.Rounds.{Cast};
ghost use Rattle.qs_world_rounds.specs.declared.rounds.Ending.{Ending};
ghost use Rattle.qs_world_sites.specs.Sites.{SitesValue};
ghost use Rattle.rand_pcg.specs.Lcg.{Lcg};

use qs_disk::Disk;

/// A run in which no client sits at two nodes has such an opening: its script over the logs that the nodes raised as they began, each in the incarnation to
/// which it was raised. By a script that is read no client does.
pub fn nodes_have_openings<D: Disk>()
    ensures opens { (alloc : Global) (script : Script) (disks : List D) (all : SitesValue D) → NodesHaveOpening D.told D.state D.fault_count alloc script disks all }
    ensures read { (nodes : ℕ) (text : List ℕ) (script : Script) → ReadSitOnce nodes text script }
{}

/// The sites of a run that has begun stand in a world that opens with each node over its log and with the scripts of all clients, over links on which
/// nothing was put yet, with what the script has planned for each.
pub fn nodes_begin<D: Disk>()
    ensures { (alloc : Global) (script : Script) (disks : List D) (all : SitesValue D) (o : Opening) → NodesBegin D.told D.state D.fault_count alloc script disks all o }
{}

/// They stay there as lanes and links are carried, through visits of any of them, so through rounds, also through one that is cut short as a disk fails.
pub fn nodes_go_on<D: Disk>()
    ensures carries { (o : Opening) (plans : ℕ → ℕ → List LinkFault) (old new : List (Cast D)) → CarriesKeep D.told D.state o plans old new }
    ensures visit { (o : Opening) (plans : ℕ → ℕ → List LinkFault) (place : ℕ) (old new : SitesValue D) (did : Bool) → VisitKeeps D.told D.state D.fault_count D.byte_count o plans place old new did }
    ensures visits { (o : Opening) (plans : ℕ → ℕ → List LinkFault) (places : List ℕ) (old new : SitesValue D) (did : Bool) → VisitsKeep D.told D.state D.fault_count D.byte_count o plans places old new did }
    ensures round { (o : Opening) (plans : ℕ → ℕ → List LinkFault) (order : List ℕ) (old new : SitesValue D) (quiet : Bool) → RoundKeeps D.told D.state D.fault_count D.byte_count o plans order old new quiet }
    ensures rounds { (o : Opening) (plans : ℕ → ℕ → List LinkFault) (rng later : Lcg) (n : ℕ) (old new : SitesValue D) → RoundsKeep D.told D.state D.fault_count D.byte_count o plans rng n old new later }
    ensures broken { (o : Opening) (plans : ℕ → ℕ → List LinkFault) (order : List ℕ) (node : NodeNo) (old new : SitesValue D) → BrokenRoundKeeps D.told D.state D.fault_count D.byte_count o plans order node old new }
{}

/// Where memory was refused in a round, in whichever visit and within whichever step, the cells still are where their nodes have come to, and the links keep
/// their plans, as they do while sites stand there.
pub fn refused_rounds_leave_cells<D: Disk>()
    ensures sites { (o : Opening) (plans : ℕ → ℕ → List LinkFault) (sites : List (Cast D)) → SitesHaveCells D.told D.state o plans sites }
    ensures refused { (o : Opening) (plans : ℕ → ℕ → List LinkFault) (order : List ℕ) (old new : SitesValue D) → RefusedRoundLeaves D.told D.state D.fault_count D.byte_count o plans order old new }
    ensures traced { (o : Opening) (plans : ℕ → ℕ → List LinkFault) (sites : List (Cast D)) → CellsAreTraced D.told D.state o plans sites }
{}

/// What the cells of such sites tell, merged by stamp and node, is the steps of a run of the world over packets, over links that keep their plans, and its
/// history; so is what they tell after any rounds of a run that has begun, as these end, where one was cut short, and where memory was refused in one.
pub fn rounds_are_runs_of_the_world<D: Disk>()
    ensures sites { (o : Opening) (plans : ℕ → ℕ → List LinkFault) (sites : List (Cast D)) → SitesAreTraced D.told D.state o plans sites }
    ensures rounds { (alloc : Global) (script : Script) (disks : List D) (o : Opening) (rng later : Lcg) (n : ℕ) (all new : SitesValue D) → RoundsAreTraced D.told D.state D.fault_count D.byte_count alloc script disks o rng n all new later }
    ensures ends { (alloc : Global) (script : Script) (disks : List D) (o : Opening) (seed : ℕ) (all new : SitesValue D) (ending : Ending) → EndingsAreTraced D.told D.state D.fault_count D.byte_count alloc script disks o seed all new ending }
    ensures cut { (alloc : Global) (script : Script) (disks : List D) (o : Opening) (seed : ℕ) (node : NodeNo) (all new : SitesValue D) → CutShortIsTraced D.told D.state D.fault_count D.byte_count alloc script disks o seed node all new }
    ensures refused { (alloc : Global) (script : Script) (disks : List D) (o : Opening) (seed : ℕ) (all new : SitesValue D) → RefusedIsTraced D.told D.state D.fault_count D.byte_count alloc script disks o seed all new }
{}
