//! The rounds of a run over all sites, up to its end.
ghost use Rattle.std.specs.Prelude.{◌≡◌, ◌≤◌, ◌<◌, ◌*◌, ◌&&◌, not, None, Err, IfOk, OnOk, IfSome};
ghost use Rattle.qs_base.specs.declared.identifiers.NodeNo.{NodeNo};
ghost use Rattle.qs_world_plans.specs.Budget.{most_budget};
ghost use Rattle.qs_world_plans.specs.Order.{drawn_order};
ghost use Rattle.qs_world_rounds.specs.declared.faults.RoundFault.TheVariants as faults;
ghost use Rattle.qs_world_sites.specs.Breaks.{BreaksRound, RefusesRound};
ghost use Rattle.qs_world_sites.specs.Endings.{IsCutShort, IsEnding, IsOutOfMemory, IsOver, add_crashes, budget_of, crashes_of};
ghost use Rattle.qs_world_sites.specs.Late.{IsLate, RisesBy};
ghost use Rattle.qs_world_sites.specs.Rounds.{IsRound, all_ended, are_settled};
ghost use Rattle.qs_world_sites.specs.Sites.{Each, GoesOn, count_of};

use qs_book_script::Script;
use qs_disk::Disk;
use qs_world_plans::{MOST_DISK_CRASHES, Orders, budget_of, disk_crashes};
use qs_world_rounds::{Actors, Ending, RoundEnd, RoundFault};
use qs_world_sites::Sites;
use std::alloc::Global;

/// Round after round, in orders that are drawn from the seed, until a quiet round has passed with a script that has not ended,
/// or with nothing left to do, or until all rounds that the script has are spent. A fault of a disk is told with its node, which was down
/// and could not be started again for it; it comes only where the disk's own count of faults rose since it was handed in. `NoMemory`
/// comes where memory was refused, be it within a step of a node. `Damaged` comes where a log opened as damaged as its node was
/// started again, which over a disk that tells it does only with more than 2^61 - 2 visits and restarts.
pub fn rounds_of<D: Disk>(
    alloc: Global,
    script: &Script,
    seed: u64,
    sites: &mut Sites<D>,
) -> Result<Ending, RoundFault>
    ensures ending { IfOk result (IsEnding D.told D.state D.fault_count D.byte_count script.now seed sites.old sites.new) }
    ensures cut { (node : NodeNo) → result ≡ Err (faults.DiskFault node) → IsCutShort D.told D.state D.fault_count D.byte_count seed node sites.old sites.new }
    ensures refused { result ≡ Err faults.NoMemory → IsOutOfMemory D.told D.state D.fault_count D.byte_count seed sites.old sites.new }
    ensures damaged { D.told → result ≡ Err faults.Damaged → IsLate (count_of sites.old * most_budget script.now) sites.old.sites }
    ensures stays { Each GoesOn sites.old.sites sites.new.sites }
{
    let mut orders = Orders::new(seed);
    let mut most = budget(script, sites);
    let mut order = Vec::new(alloc);
    let mut rounds: u64 = 0;
    while rounds < u64::MAX {
        let end = next_round(&mut orders, &mut order, sites)?;
        rounds += 1;
        if let Some(ending) = ending_of(script, rounds, &mut most, end, sites) {
            return Ok(ending);
        }
    }
    unreachable!()
}

/// The next round, in an order that is drawn into the list.
fn next_round<D: Disk>(
    orders: &mut Orders,
    order: &mut Vec<usize>,
    sites: &mut Sites<D>,
) -> Result<RoundEnd, RoundFault>
    ensures round { IfOk result (λ end. IsRound D.told D.state D.fault_count D.byte_count (drawn_order (count_of sites.old) orders.old.rng).0 sites.old sites.new end.quiet) }
    ensures drawn { OnOk result (orders.new.rng ≡ (drawn_order (count_of sites.old) orders.old.rng).1) }
    ensures broken { (node : NodeNo) → result ≡ Err (faults.DiskFault node)
        → BreaksRound D.told D.state D.fault_count D.byte_count (drawn_order (count_of sites.old) orders.old.rng).0 node sites.old sites.new }
    ensures refused { result ≡ Err faults.NoMemory
        → RefusesRound D.told D.state D.fault_count D.byte_count (drawn_order (count_of sites.old) orders.old.rng).0 sites.old sites.new }
    ensures damaged { D.told → result ≡ Err faults.Damaged → IsLate (count_of sites.old) sites.old.sites }
    ensures rises { OnOk result (Each (RisesBy (count_of sites.old)) sites.old.sites sites.new.sites) }
    ensures stays { Each GoesOn sites.old.sites sites.new.sites }
{
    orders.draw(sites.count(), order)?;
    sites.round(order.as_slice())
}

/// How the rounds end after so many, if they do: the last one was quiet and the actors can go no further, or all rounds that
/// the script has were made. `most` is at most as many as it has, and is counted anew where so many were made.
fn ending_of<D: Disk>(
    script: &Script,
    rounds: u64,
    most: &mut u64,
    end: RoundEnd,
    sites: &Sites<D>,
) -> Option<Ending>
    requires { most.old ≤ budget_of script.now sites.now }
    ensures over { IfSome result (IsOver script.now rounds end.quiet sites.now) }
    ensures more { result ≡ None → rounds < most.new }
    ensures most { most.new ≤ budget_of script.now sites.now }
{
    let settled = is_settled(end, sites);
    if settled || is_still(end, sites) {
        return Some(Ending { rounds, settled });
    }
    if rounds < *most {
        return None;
    }
    *most = budget(script, sites);
    if rounds < *most {
        return None;
    }
    Some(Ending { rounds, settled })
}

/// The round was quiet, and nothing is left to do.
fn is_settled<D: Disk>(end: RoundEnd, sites: &Sites<D>) -> bool
    ensures { result ≡ (end.quiet && are_settled sites.now) }
{
    end.quiet && sites.are_settled()
}

/// The round was quiet, and a script has not ended.
fn is_still<D: Disk>(end: RoundEnd, sites: &Sites<D>) -> bool
    ensures { result ≡ (end.quiet && not (all_ended sites.now)) }
{
    end.quiet && !sites.all_ended()
}

/// How many rounds a run of the script has, after what its sites have told so far.
fn budget<D: Disk>(script: &Script, sites: &Sites<D>) -> u64
    ensures { result ≡ budget_of script.now sites.now }
{
    budget_of(
        script.lines.len(),
        script.faults.len(),
        crashes_of(sites.sites()),
    )
}

/// How often faults of disks stopped the nodes, as far as they are counted.
fn crashes_of<D: Disk>(sites: &[Actors<D>]) -> usize
    ensures { result ≡ crashes_of sites.now }
{
    let mut crashes = 0;
    for site in sites {
        crashes = add_crashes(crashes, site);
    }
    crashes
}

/// One site more.
fn add_crashes<D: Disk>(sum: usize, site: &Actors<D>) -> usize
    requires { sum ≤ 64 }
    ensures { result ≡ add_crashes sum site.now }
{
    (sum + disk_crashes(site.node().journal())).min(MOST_DISK_CRASHES)
}
