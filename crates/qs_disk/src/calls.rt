//! Numbers of calls, and which of them fail.
ghost use Rattle.std.specs.Prelude.{◌≡◌, ◌↔◌, ℕ, ◌+◌, ◌-◌, ◌^◌, min, if◌then◌else◌, IsTrue, IfOk, Contains};
ghost use Rattle.qs_disk.specs.Memory.{raised};

use qs_base::NoMemory;
use std::alloc::Global;

// Counts calls and faults, each at most 2^64 - 1. The calls whose numbers, from 1, stand in `fail`
// fail.
#[derive(Drop)]
pub struct Calls {
    fail: Vec<u64>,
    calls: u64,
    faults: u64,
}

impl Calls {
    // No call so far.
    pub fn new(alloc: Global, fail: &[u64]) -> Result<Calls, NoMemory>
        ensures fail { IfOk result (λ c. c.fail.items ≡ fail.now) }
        ensures calls { IfOk result (λ c. c.calls ≡ 0) }
        ensures faults { IfOk result (λ c. c.faults ≡ 0) }
    {
        Ok(Calls {
            fail: Vec::from_slice(alloc, fail)?,
            calls: 0,
            faults: 0,
        })
    }

    // Numbers the next call, and answers whether it fails, which it counts.
    pub fn fails(&mut self) -> bool
        ensures answer { IsTrue result ↔ Contains self.old.fail.items (raised self.old.calls) }
        ensures fail { self.new.fail ≡ self.old.fail }
        ensures calls { self.new.calls ≡ raised self.old.calls }
        ensures faults { self.new.faults ≡ (if result then raised self.old.faults else self.old.faults) }
    {
        self.calls = self.calls.saturating_add(1);
        let fails = self.fail.contains(&self.calls);
        if fails {
            self.faults = self.faults.saturating_add(1);
        }
        fails
    }

    // How many calls failed.
    pub fn faults(&self) -> u64
        ensures { result ≡ self.now.faults }
    {
        self.faults
    }
}
