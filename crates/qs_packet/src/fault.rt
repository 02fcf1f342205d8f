//! Why bytes are no packet, or not read.
ghost use Rattle.std.specs.Prelude.{◌≡◌};
ghost use Rattle.qs_packet.specs.declared.fault.PacketFault.TheVariants as faults;
ghost use Rattle.qs_packet.specs.Reading.{fault_of};

use qs_base::NoMemory;
use qs_codec::CodecFault;
use qs_record::RecordFault;
use thiserror::Error;

/// Why bytes were not read as a packet.
#[derive(Clone, Copy, Debug, Error)]
pub enum PacketFault {
    /// No front of the bytes is the spelling of a packet: the first fault from the left.
    #[error("{fault}")]
    Codec { fault: CodecFault },
    /// A packet stands there, and bytes behind it, the first of them at place `at`.
    #[error("bytes behind the packet at {at}")]
    Trailing { at: u64 },
    /// Memory was asked for and refused.
    #[error("memory was refused")]
    NoMemory,
}

impl From<RecordFault> for PacketFault {
    ghost from_gives = { λ fault e. e ≡ fault_of fault };

    fn from(fault: RecordFault) -> PacketFault {
        match fault {
            RecordFault::Codec { fault } => PacketFault::Codec { fault },
            RecordFault::NoMemory => PacketFault::NoMemory,
        }
    }
}
