//! What stands in the lanes of each site, and on the links between them, is carried to their ends.
ghost use Rattle.std.specs.Prelude.{◌<◌, ◌==◌, ◌&&◌, length, OnOk};
ghost use Rattle.qs_world_sites.specs.Bursts.{AreFifoSites};
ghost use Rattle.qs_world_sites.specs.Carrying.{CarriesWhere, HasSameLinks, WasMet};
ghost use Rattle.qs_world_sites.specs.Sites.{AreCarried, AreLinked, AreLinksCarried, CarriesLanes, Each, HasSameCell};

use qs_base::NoMemory;
use qs_disk::Disk;
use qs_world_rounds::Actors;

/// What stands in the lanes of each site is carried, and then what stands on the links between them. Each ring of a link is looked at from both
/// its ends. After `NoMemory`, which comes where memory was refused, some was carried, and nothing is lost.
pub fn carry_all<D: Disk>(sites: &mut [Actors<D>]) -> Result<(), NoMemory>
    requires { AreLinked sites.old }
    ensures carries { OnOk result (AreCarried sites.old sites.new) }
    ensures joined { AreFifoSites sites.old }
    ensures cells { Each HasSameCell sites.old sites.new }
    ensures linked { AreLinked sites.new }
{
    let lanes = carry_lanes(sites);
    lanes.and(carry_links(sites))
}

/// What stands in the lanes of each site is carried.
fn carry_lanes<D: Disk>(sites: &mut [Actors<D>]) -> Result<(), NoMemory>
    ensures carries { OnOk result (Each CarriesLanes sites.old sites.new) }
    ensures cells { Each HasSameCell sites.old sites.new }
    ensures links { Each HasSameLinks sites.old sites.new }
{
    match sites.split_first_mut() {
        None => Ok(()),
        Some((site, sites)) => {
            site.carry()?;
            carry_lanes(sites)
        }
    }
}

/// What stands on each link is carried, as far as memory is had for, and each of its rings is looked at from both ends.
pub fn carry_links<D: Disk>(sites: &mut [Actors<D>]) -> Result<(), NoMemory>
    requires { AreLinked sites.old }
    ensures carries { OnOk result (AreLinksCarried sites.old sites.new) }
    ensures joined { AreFifoSites sites.old }
    ensures cells { Each HasSameCell sites.old sites.new }
    ensures linked { AreLinked sites.new }
{
    let mut carried = Ok(());
    for to in 0..sites.len() {
        carried = carried.and(carry_to(sites, to));
    }
    carried
}

/// What stands on each link to a site is carried, as far as memory is had for.
fn carry_to<D: Disk>(sites: &mut [Actors<D>], to: usize) -> Result<(), NoMemory>
    requires linked { AreLinked sites.old }
    requires within { to < length sites.old }
    ensures { CarriesWhere (WasMet result) (λ n m. m == to) sites.old sites.new }
{
    let mut carried = Ok(());
    for from in 0..sites.len() {
        carried = carried.and(carry_between(sites, from, to));
    }
    carried
}

/// What stands on the link from one site to another is carried; a site has no link to itself.
fn carry_between<D: Disk>(sites: &mut [Actors<D>], from: usize, to: usize) -> Result<(), NoMemory>
    requires linked { AreLinked sites.old }
    requires from { from < length sites.old }
    requires to { to < length sites.old }
    ensures { CarriesWhere (WasMet result) (λ n m. (n == from) && (m == to)) sites.old sites.new }
{
    if from == to {
        return Ok(());
    }
    if from < to {
        let (front, back) = sites.split_at_mut(to);
        back[0].carry_packets(&mut front[from])?;
    } else {
        let (front, back) = sites.split_at_mut(from);
        front[to].carry_packets(&mut back[0])?;
    }
    Ok(())
}
