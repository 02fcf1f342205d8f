//! All links of a run.
ghost use Rattle.std.specs.Prelude.{ℕ, List, Result, Bool};
ghost use Rattle.std.specs.Global.{Global};
ghost use Rattle.qs_base.specs.declared.memory.NoMemory.{NoMemory};
ghost use Rattle.qs_cell.specs.Hearing.{Post};
ghost use Rattle.qs_cell.specs.declared.state.RestartFault.{RestartFault};
ghost use Rattle.qs_link.specs.declared.outgoing.LinkFault.{LinkFault};
ghost use Rattle.qs_world_links.specs.Everywhere.{KeepAsOneTook, ToldAsAllCarried, ToldAsCarried, ToldAsNew, ToldAsRestarted, ToldAsSame, ToldAsOneTells, ToldAsVisited, ToldKeepPlans};

use qs_disk::Disk;

/// Each link of a run stands between the traces of its two nodes as all begin, and stays so as a node is visited or starts again, as links are
/// carried, and as nothing is done with nodes and links. So what each node took of each
/// other one is a front of all that goes out by the plan of what that one put for it; also where memory was then refused at one of them.
pub fn links_stay_told<D: Disk>()
    ensures new { (nodes : ℕ) (plans : ℕ → ℕ → List LinkFault) (posts : ℕ → Post D) → ToldAsNew nodes plans posts }
    ensures told { (nodes k : ℕ) (plans : ℕ → ℕ → List LinkFault) (old new : ℕ → Post D) → ToldAsOneTells nodes plans k old new }
    ensures visited { (nodes k : ℕ) (plans : ℕ → ℕ → List LinkFault) (old new : ℕ → Post D) → ToldAsVisited D.told D.state D.fault_count D.byte_count nodes plans k old new }
    ensures restarted { (alloc : Global) (nodes k : ℕ) (plans : ℕ → ℕ → List LinkFault) (old new : ℕ → Post D) (answer : Result Bool RestartFault)
        → ToldAsRestarted D.told D.state D.fault_count D.byte_count alloc nodes plans k old new answer }
    ensures carried { (nodes m n : ℕ) (plans : ℕ → ℕ → List LinkFault) (result : Result ℕ NoMemory) (old new : ℕ → Post D) → ToldAsCarried nodes plans m n result old new }
    ensures all_carried { (nodes : ℕ) (plans : ℕ → ℕ → List LinkFault) (old new : ℕ → Post D) → ToldAsAllCarried nodes plans old new }
    ensures same { (nodes : ℕ) (plans : ℕ → ℕ → List LinkFault) (old new : ℕ → Post D) → ToldAsSame nodes plans old new }
    ensures keeps { (nodes : ℕ) (plans : ℕ → ℕ → List LinkFault) (posts : ℕ → Post D) → ToldKeepPlans nodes plans posts }
    ensures took { (nodes k : ℕ) (plans : ℕ → ℕ → List LinkFault) (old new : ℕ → Post D) → KeepAsOneTook nodes plans k old new }
{}
