//! A fuse that trips at the planned calls.
ghost use Rattle.std.specs.Prelude.{◌≡◌, ◌+◌, not, ◌||◌, if◌then◌else◌};
ghost use Rattle.qs_disk.specs.Memory.{raised};
ghost use Rattle.qs_disk.specs.Fuse.{GoesOn, stops, after_call, armed, mended, new_fuse, is_planned};

use qs_base::List;
use std::marker::Model;

// From arming on it numbers calls from 1 and counts those that it stops. It trips at those of its
// plan, and refuses every later call until it is mended. Its counts stay at 2^64 - 1.
#[derive(Drop)]
pub struct Fuse {
    plan: Option<List<u64>>,
    blown: bool,
    calls: u64,
    trips: u64,
}

impl Model for Fuse {
    ghost use Rattle.qs_disk.specs.Fuse.{FuseValue};

    ghost Value = { FuseValue };

    ghost view = { λ f. record { plan = f.plan; blown = f.blown; calls = f.calls; trips = f.trips } };
}

impl Fuse {
    // Nothing is planned.
    pub fn new() -> Fuse
        ensures { result ≡ new_fuse }
    {
        Fuse {
            plan: None,
            blown: false,
            calls: 0,
            trips: 0,
        }
    }

    // It begins anew with this plan: calls are numbered from 1, and nothing tripped.
    pub fn arm(&mut self, plan: List<u64>)
        ensures { self.new ≡ armed plan }
    {
        self.plan = Some(plan);
        self.blown = false;
        self.calls = 0;
        self.trips = 0;
    }

    // Lets calls pass again.
    #[tactic(auto, using(crate::proofs::Fuses::goes_mended))]
    pub fn mend(&mut self)
        ensures mended { self.new ≡ mended self.old }
        ensures goes { GoesOn self.old self.new }
    {
        self.blown = false;
    }

    // Whether it refuses calls.
    pub fn is_blown(&self) -> bool
        ensures { result ≡ self.now.blown }
    {
        self.blown
    }

    // How many calls it tripped at or refused.
    pub fn trips(&self) -> u64
        ensures { result ≡ self.now.trips }
    {
        self.trips
    }

    // Numbers the next call, and answers whether it trips at it or refuses it, which it counts.
    #[tactic(auto, using(crate::proofs::Fuses::goes_by_call))]
    pub fn stops(&mut self) -> bool
        ensures answer { result ≡ stops self.old }
        ensures after { self.new ≡ after_call self.old }
        ensures goes { GoesOn self.old self.new }
    {
        self.calls = self.calls.saturating_add(1);
        let stops = self.blown || has(&self.plan, self.calls);
        if stops {
            self.blown = true;
            self.trips = self.trips.saturating_add(1);
        }
        stops
    }
}

fn has(plan: &Option<List<u64>>, number: u64) -> bool
    ensures { result ≡ is_planned plan.now number }
{
    match plan {
        Some(plan) => plan.as_slice().contains(&number),
        None => false,
    }
}
