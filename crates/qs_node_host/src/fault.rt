//! Why a step is cut off.

use qs_base::NoMemory;
use qs_disk::DiskFailed;
use qs_log::AppendFault;

/// Why a step was cut off.
#[derive(Clone, Copy)]
pub enum HostFault {
    /// A call of the disk failed within the force.
    Disk,
    /// Memory was asked for and refused.
    NoMemory,
    /// The log has no room for a record.
    NoRoom,
}

impl From<NoMemory> for HostFault {
    ghost use Rattle.std.specs.Prelude.{◌≡◌};
    ghost use Rattle.qs_node_host.specs.declared.fault.HostFault.TheVariants.{NoMemory};

    ghost from_gives = { λ _ e. e ≡ NoMemory };

    fn from(_error: NoMemory) -> HostFault {
        HostFault::NoMemory
    }
}

impl From<DiskFailed> for HostFault {
    ghost use Rattle.std.specs.Prelude.{◌≡◌};
    ghost use Rattle.qs_node_host.specs.declared.fault.HostFault.TheVariants.{Disk};

    ghost from_gives = { λ _ e. e ≡ Disk };

    fn from(_error: DiskFailed) -> HostFault {
        HostFault::Disk
    }
}

impl From<AppendFault> for HostFault {
    ghost use Rattle.std.specs.Prelude.{◌≡◌};
    ghost use Rattle.qs_node_host.specs.Roomy.{refusal_of};

    ghost from_gives = { λ fault e. e ≡ refusal_of fault };

    fn from(fault: AppendFault) -> HostFault {
        match fault {
            AppendFault::LogFull { .. } => HostFault::NoRoom,
            AppendFault::NoMemory => HostFault::NoMemory,
        }
    }
}
