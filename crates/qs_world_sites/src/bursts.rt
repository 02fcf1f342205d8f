//! The turns of sites in a burst, side by side.
ghost use Rattle.std.specs.Prelude.{OnOk};
ghost use Rattle.qs_world_rounds.specs.Turns.{TakesSome, TakesTurns};
ghost use Rattle.qs_world_sites.specs.Bursts.{Bursts};
ghost use Rattle.qs_world_sites.specs.Sites.{AreLinked, Each, StaysLinked};

use qs_base::NoMemory;
use qs_base_each::each;
use qs_disk::Disk;
use qs_io::Gate;
use qs_world_rounds::Actors;
use std::thread::Threads;

/// Each site takes so many turns, side by side with the others, in threads where these can be made. After `NoMemory`, which comes where memory was
/// refused at one site or at several, the others took all their turns.
pub fn take_all<R: Threads + Sync, D: Disk + Send, G: Gate + Sync>(
    rt: &R,
    gate: &G,
    turns: u32,
    sites: &mut [Actors<D>],
) -> Result<(), NoMemory>
    requires linked { AreLinked sites.old }
    ensures bursts { OnOk result (Bursts D.told D.state D.fault_count D.byte_count turns sites.old sites.new) }
    ensures some { Each (TakesSome D.told D.state D.fault_count D.byte_count turns) sites.old sites.new }
    ensures stays { Each StaysLinked sites.old sites.new }
    ensures linked { AreLinked sites.new }
{
    let take = |site: &mut Actors<D>| -> Result<(), NoMemory>
        ensures turns { OnOk result (TakesTurns D.told D.state D.fault_count D.byte_count turns site.entry.now site.exit.now) }
        ensures some { TakesSome D.told D.state D.fault_count D.byte_count turns site.entry.now site.exit.now }
        ensures stays { StaysLinked site.entry.now site.exit.now }
    { site.take_turns(gate, turns) };
    each(rt, &take, sites)
}
