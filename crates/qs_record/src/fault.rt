//! Why bytes are not the spelling of a value, or not read.
ghost use Rattle.std.specs.Prelude.{◌≡◌};
ghost use Rattle.qs_record.specs.declared.fault.RecordFault.TheVariants as faults;

use qs_base::NoMemory;
use qs_codec::CodecFault;
use thiserror::Error;

/// Why a value that takes memory was not read.
#[derive(Clone, Copy, Debug, PartialEq, Eq, Error)]
pub enum RecordFault {
    /// The bytes are not the spelling of such a value: the first fault from the left.
    #[error("{fault}")]
    Codec { fault: CodecFault },
    /// Memory was asked for and refused.
    #[error("memory was refused")]
    NoMemory,
}

impl From<CodecFault> for RecordFault {
    ghost from_gives = { λ fault e. e ≡ faults.Codec fault };

    fn from(fault: CodecFault) -> RecordFault {
        RecordFault::Codec { fault }
    }
}

impl From<NoMemory> for RecordFault {
    ghost from_gives = { λ _ e. e ≡ faults.NoMemory };

    fn from(_error: NoMemory) -> RecordFault {
        RecordFault::NoMemory
    }
}
