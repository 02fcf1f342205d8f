//! Why slots were not opened.
use qs_disk::DiskFailed;
use thiserror::Error;

/// Why slots were not opened.
#[derive(Clone, Copy, Debug, PartialEq, Eq, Error)]
pub enum SlotFault {
    /// A disk call failed.
    #[error("a disk call failed")]
    DiskFailed,
    /// The slot at byte `at` is damaged, or has the sequence of the other one.
    #[error("damaged slot at {at}")]
    Damaged { at: u64 },
}

impl From<DiskFailed> for SlotFault {
    ghost use Rattle.std.specs.Prelude.{◌≡◌};
    ghost use Rattle.qs_slot.specs.declared.fault.SlotFault.TheVariants as faults;

    ghost from_gives = { λ error fault. fault ≡ faults.DiskFailed };

    fn from(_error: DiskFailed) -> SlotFault {
        SlotFault::DiskFailed
    }
}
