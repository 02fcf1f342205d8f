//! The order in which the actors of a run are visited in a round.
ghost use Rattle.std.specs.Prelude.{◌≡◌, ◌≤◌, ◌+◌, ◌-◌, ◌%◌, OnOk, length};
ghost use Rattle.std.specs.List.{swap};
ghost use Rattle.rand_pcg.specs.Pcg.{pcg32};
ghost use Rattle.qs_world_plans.specs.Order.{seeded, places_below, shuffled, drawn_order};

use qs_base::NoMemory;
use rand_core::utils::NextWord;
use rand_pcg::Lcg64Xsh32;

/// What draws the orders of a run, one for each round.
#[derive(Drop)]
pub struct Orders {
    pub rng: Lcg64Xsh32,
}

impl Orders {
    /// Those of a seed.
    pub fn new(seed: u64) -> Orders
        ensures { result.rng ≡ seeded seed }
    {
        Orders {
            rng: Lcg64Xsh32::new(seed, 0),
        }
    }

    /// Puts the places of so many actors, from 0, into the list in place of what it holds, in the order of their visits in the
    /// next round. The only error is a refusal of memory.
    pub fn draw(&mut self, count: usize, places: &mut Vec<usize>) -> Result<(), NoMemory>
        ensures order { OnOk result ((places.new.items, self.new.rng) ≡ drawn_order count self.old.rng) }
    {
        list_places(places, count)?;
        shuffle(&mut self.rng, places);
        Ok(())
    }
}

/// Puts the places of so many actors, from 0 on, into the list in place of what it holds. The only error is a refusal of memory.
pub fn list_places(places: &mut Vec<usize>, count: usize) -> Result<(), NoMemory>
    ensures places { OnOk result (places.new.items ≡ places_below count) }
    ensures count { OnOk result (length places.new.items ≡ count) }
{
    places.clear();
    for place in 0..count {
        places.push(place)?;
    }
    Ok(())
}

/// Each place from the last one down to place 1 changes with one that is drawn from it and those before it.
fn shuffle(rng: &mut Lcg64Xsh32, places: &mut Vec<usize>)
    ensures { (places.new.items, rng.new) ≡ shuffled (length places.old.items - 1) rng.old places.old.items }
{
    for back in 1..places.len() {
        swap_drawn(rng, places, back);
    }
}

/// The place that lies so far before the end changes with one that is drawn from it and those before it.
fn swap_drawn(rng: &mut Lcg64Xsh32, places: &mut Vec<usize>, back: usize)
    requires some { 1 ≤ back }
    requires within { back ≤ length places.old.items }
    ensures rng { rng.new ≡ (pcg32 rng.old).1 }
    ensures places { places.new.items ≡ swap places.old.items (length places.old.items - back)
        ((pcg32 rng.old).0 % ((length places.old.items - back) + 1)) }
    ensures long { length places.new.items ≡ length places.old.items }
{
    let last = places.len() - back;
    let other = rng.next_word() as usize % (last + 1);
    places.swap(last, other);
}
