//! Why an area's batches are not read.
ghost use Rattle.std.specs.Prelude.{◌≡◌};
ghost use Rattle.qs_log_batch.specs.declared.fault.BatchFault.TheVariants as faults;

use qs_base::NoMemory;
use thiserror::Error;

/// Why an area's batches are not read. Places are counted in bytes from 0 at the area's first byte.
#[derive(Clone, Copy, Debug, PartialEq, Eq, Error)]
pub enum BatchFault {
    /// The open gate at `at` stands before no batch.
    #[error("broken at {at}")]
    Broken { at: u64 },
    /// Memory was asked for and refused.
    #[error("memory was refused")]
    NoMemory,
}

impl From<NoMemory> for BatchFault {
    ghost from_gives = { λ _ e. e ≡ faults.NoMemory };

    fn from(_error: NoMemory) -> BatchFault {
        BatchFault::NoMemory
    }
}
