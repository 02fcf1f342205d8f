//! What acts do with links.
ghost use Rattle.std.specs.Prelude.{ℕ, List};
ghost use Rattle.qs_cell.specs.Hearing.{Post};
ghost use Rattle.qs_link.specs.declared.outgoing.LinkFault.{LinkFault};
ghost use Rattle.qs_world_bursts.specs.Refused.{KeepAfterSome, RefusedActTells};
ghost use Rattle.qs_world_bursts.specs.Telling.{ActTells, ActsTellOn, ToldAfterActs};

use qs_disk::Disk;

/// The trace of a cell tells all that an act does with the ends of its links, and so what acts do, one after the other: what the new steps put for each node went to its
/// link, in order; and of what came by each link, from its inbox and out of its ring, they took the first, in order, where all of it goes between the two nodes.
/// Nothing is said of the other ends, which other threads have.
pub fn acts_tell_of_links<D: Disk>()
    ensures act { (nodes n : ℕ) (old new : Post D) → ActTells D.told D.state D.fault_count D.byte_count nodes n old new }
    ensures on { (nodes n : ℕ) (old mid new : Post D) → ActsTellOn nodes n old mid new }
{}

/// Where each node made acts, in a thread of its own, and the threads have joined, so that each ring is seen from both ends and has lost, repeated and reordered nothing, each
/// link of the run stands between the traces of its two nodes as before.
pub fn links_stay_told_through_acts<D: Disk>()
    ensures { (nodes : ℕ) (plans : ℕ → ℕ → List LinkFault) (old new : ℕ → Post D) → ToldAfterActs nodes plans old new }
{}

/// Where memory was refused in an act, the trace still tells what was taken of each link, and what went out is a front of what it puts. So where the threads have joined, what each
/// node took of each other one is still a front of all that goes out by the plan of what that one put for it.
pub fn refused_acts_keep_plans<D: Disk>()
    ensures act { (nodes n : ℕ) (old new : Post D) → RefusedActTells D.told D.state D.fault_count D.byte_count nodes n old new }
    ensures keep { (nodes : ℕ) (plans : ℕ → ℕ → List LinkFault) (old new : ℕ → Post D) → KeepAfterSome nodes plans old new }
{}
