//! What a disk behind a fuse has counted.
ghost use Rattle.std.specs.Prelude.{◌≡◌, ◌≢◌, ◌↔◌, IsTrue};
ghost use Rattle.qs_base.specs.Causes.{Rose};

use qs_disk::{Disk, Fused};

/// The calls that the fuse tripped at or refused, and those that the disk behind it failed.
#[derive(Clone, Copy)]
pub struct FaultCounts {
    pub trips: u64,
    pub own: u64,
}

impl FaultCounts {
    pub fn of<D: Disk>(disk: &Fused<D>) -> FaultCounts
        ensures trips { result.trips ≡ disk.now.fuse.trips }
        ensures own { result.own ≡ D.fault_count disk.now.disk }
    {
        FaultCounts {
            trips: disk.trips(),
            own: disk.own_faults(),
        }
    }

    /// Whether the fuse has tripped since then.
    pub fn has_tripped(self, now: FaultCounts) -> bool
        ensures { IsTrue result ↔ (now.trips ≢ self.trips) }
    {
        now.trips != self.trips
    }

    /// Whether the disk itself has failed a call since then.
    pub fn has_failed(self, now: FaultCounts) -> bool
        ensures { IsTrue result → Rose self.own now.own }
    {
        now.own > self.own || now.own == u64::MAX
    }
}
