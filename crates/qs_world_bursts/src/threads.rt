//! Bursts of all sites, and rounds behind them.
ghost use Rattle.std.specs.Prelude.{ℕ, Bool, List};
ghost use Rattle.std.specs.Global.{Global};
ghost use Rattle.qs_book_script.specs.declared.script.Script.{Script};
ghost use Rattle.qs_link.specs.declared.outgoing.LinkFault.{LinkFault};
ghost use Rattle.qs_world.specs.World.{Opening};
ghost use Rattle.qs_world_bursts.specs.Refused.{RefusedBurstLeaves};
ghost use Rattle.qs_world_bursts.specs.Threads.{BurstKeeps, RoundBehindKeeps, RoundsBehindAreTraced, TurnGoesOn};
ghost use Rattle.qs_world_rounds.specs.Rounds.{Cast};
ghost use Rattle.qs_world_sites.specs.Sites.{SitesValue};

use qs_disk::Disk;

/// A site stays in the world through its turn in a burst, whatever the others do meanwhile. Where each took as many, in whatever order in time, and lanes and links are
/// carried behind that, as a round begins, all sites stay there, and so through the round.
pub fn bursts_go_on<D: Disk>()
    ensures turn { (o : Opening) (n : ℕ) (old new : Cast D) → TurnGoesOn D.told D.state D.fault_count D.byte_count o n old new }
    ensures burst { (o : Opening) (plans : ℕ → ℕ → List LinkFault) (turns : ℕ) (old mid new : List (Cast D)) → BurstKeeps D.told D.state D.fault_count D.byte_count o plans turns old mid new }
    ensures round { (o : Opening) (plans : ℕ → ℕ → List LinkFault) (turns : ℕ) (order : List ℕ) (old new : SitesValue D) (quiet : Bool) → RoundBehindKeeps D.told D.state D.fault_count D.byte_count o plans turns order old new quiet }
{}

/// What the cells of a run that has begun tell after so many rounds, each behind a burst, merged by stamp and node, is the steps of a run of the world over packets, over links
/// that keep the script's plans, and its history.
pub fn rounds_behind_bursts_are_runs_of_the_world<D: Disk>()
    ensures { (alloc : Global) (script : Script) (disks : List D) (o : Opening) (turns n : ℕ) (all new : SitesValue D) → RoundsBehindAreTraced D.told D.state D.fault_count D.byte_count alloc script disks o turns n all new }
{}

/// Where memory was refused in a burst, at one site or at several, be it within a step of a node, and the threads have joined, each cell still is where its node has come to, and the
/// links keep their plans, also where links were then carried as far as memory was had for.
pub fn refused_bursts_leave_cells<D: Disk>()
    ensures { (o : Opening) (plans : ℕ → ℕ → List LinkFault) (turns : ℕ) (old new : List (Cast D)) → RefusedBurstLeaves D.told D.state D.fault_count D.byte_count o plans turns old new }
{}
