//! Why a source or a sink refused.
ghost use Rattle.std.specs.Prelude.{◌≡◌};

use qs_base::NoMemory;
use thiserror::Error;

/// A source failed to give its next bytes. Its count of faults rose, or stands at 2^64 - 1.
#[derive(Clone, Copy, Debug, PartialEq, Eq, Error)]
#[error("a read failed")]
pub struct ReadFailed;

/// A sink failed to take any byte. Its count of faults rose, or stands at 2^64 - 1.
#[derive(Clone, Copy, Debug, PartialEq, Eq, Error)]
#[error("a write failed")]
pub struct WriteFailed;

/// Why the text of a source was not read.
#[derive(Clone, Copy, Debug, PartialEq, Eq, Error)]
pub enum ReadFault {
    /// The source answered a fault.
    #[error("a read failed")]
    Failed,
    /// Memory was asked for and refused.
    #[error("out of memory")]
    NoMemory,
}

impl From<ReadFailed> for ReadFault {
    ghost use Rattle.qs_io.specs.declared.faults.ReadFault.TheVariants.{Failed};

    ghost from_gives = { λ _ e. e ≡ Failed };

    fn from(_error: ReadFailed) -> ReadFault {
        ReadFault::Failed
    }
}

impl From<NoMemory> for ReadFault {
    ghost use Rattle.qs_io.specs.declared.faults.ReadFault.TheVariants.{NoMemory};

    ghost from_gives = { λ _ e. e ≡ NoMemory };

    fn from(_error: NoMemory) -> ReadFault {
        ReadFault::NoMemory
    }
}
