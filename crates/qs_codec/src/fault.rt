//! Why bytes are not the spelling of a field.
use thiserror::Error;

/// Why a field was not read: the first fault from the left. Places are counted in bytes from 0 at
/// the reader's first byte.
#[derive(Clone, Copy, Debug, PartialEq, Eq, Error)]
pub enum CodecFault {
    /// Fewer than `need` bytes are left from place `at` on.
    #[error("short at {at}: {need} bytes needed")]
    Short { at: u64, need: u64 },
    /// The length of a text, which stands at `at`, is above the limit.
    #[error("too long at {at}: {length} bytes")]
    TooLong { at: u64, length: u32 },
    /// No value has this tag, which stands at `at`.
    #[error("bad tag {tag} at {at}")]
    BadTag { at: u64, tag: u8 },
    /// The byte of a text at `at` is not one of 32 to 126.
    #[error("bad text at {at}")]
    BadText { at: u64 },
    /// The number that begins at `at` is not below 2^62.
    #[error("bad number at {at}")]
    BadNumber { at: u64 },
}
