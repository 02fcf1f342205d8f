//! Refusals for want of memory, and of counters that have come to their last value.

use std::alloc::{AllocError, AllocFailed};

/// Memory was asked for and refused. No clause ties it to a cause.
#[derive(Clone, Copy, Debug)]
pub struct NoMemory;

impl From<AllocError> for NoMemory {
    fn from(_error: AllocError) -> NoMemory {
        NoMemory
    }
}

impl<T: Drop> From<AllocFailed<T>> for NoMemory {
    fn from(_failed: AllocFailed<T>) -> NoMemory {
        NoMemory
    }
}

/// Why a call that raises counters refused.
#[derive(Clone, Copy)]
pub enum GrowFault {
    /// A counter that the call would raise stands at its last value.
    Last { value: u64 },
    /// Memory was asked for and refused.
    NoMemory,
}

impl From<NoMemory> for GrowFault {
    ghost use Rattle.std.specs.Prelude.{◌≡◌};
    ghost use Rattle.qs_base.specs.declared.memory.GrowFault.TheVariants.{NoMemory};

    ghost from_gives = { λ _ e. e ≡ NoMemory };

    fn from(_error: NoMemory) -> GrowFault {
        GrowFault::NoMemory
    }
}
