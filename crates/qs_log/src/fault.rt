//! Why a log is not opened, and why a record is not taken.
use qs_base::NoMemory;
use qs_disk::DiskFailed;
use thiserror::Error;

/// Why a log is not opened.
#[derive(Clone, Copy, Debug, Error)]
pub enum OpenFault {
    /// A disk call failed.
    #[error("a disk call failed")]
    DiskFailed,
    /// At byte `at` of the disk stands a damaged slot, or an open gate before no batch.
    #[error("damaged at {at}")]
    Damaged { at: u64 },
    /// Memory was asked for and refused.
    #[error("memory was refused")]
    NoMemory,
}

impl From<DiskFailed> for OpenFault {
    ghost use Rattle.std.specs.Prelude.{◌≡◌};
    ghost use Rattle.qs_log.specs.declared.fault.OpenFault.TheVariants as faults;

    ghost from_gives = { λ _ fault. fault ≡ faults.DiskFailed };

    fn from(_error: DiskFailed) -> OpenFault {
        OpenFault::DiskFailed
    }
}

impl From<NoMemory> for OpenFault {
    ghost use Rattle.std.specs.Prelude.{◌≡◌};
    ghost use Rattle.qs_log.specs.declared.fault.OpenFault.TheVariants as faults;

    ghost from_gives = { λ _ fault. fault ≡ faults.NoMemory };

    fn from(_error: NoMemory) -> OpenFault {
        OpenFault::NoMemory
    }
}

/// A log that was not opened: its disk, and why.
#[derive(Drop)]
pub struct LogOpen<D> {
    pub disk: D,
    pub why: OpenFault,
}

/// Why a record is not taken.
#[derive(Clone, Copy, Debug, Error)]
pub enum AppendFault {
    /// The record needs more bytes than there is room for.
    #[error("the log is full: {need} bytes are needed, and there is room for {room}")]
    LogFull { need: u64, room: u64 },
    /// Memory was asked for and refused.
    #[error("memory was refused")]
    NoMemory,
}

impl From<NoMemory> for AppendFault {
    ghost use Rattle.std.specs.Prelude.{◌≡◌};
    ghost use Rattle.qs_log.specs.declared.fault.AppendFault.TheVariants as faults;

    ghost from_gives = { λ _ fault. fault ≡ faults.NoMemory };

    fn from(_error: NoMemory) -> AppendFault {
        AppendFault::NoMemory
    }
}
