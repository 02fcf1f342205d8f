//! A disk whose syncs are counted.
ghost use Rattle.std.specs.Prelude.{◌≡◌};

use crate::meter::Meter;
use qs_disk::{Disk, DiskFailed};
use std::marker::Model;
use std::rt::Clock;

/// A disk, and the meter that counts its syncs. It is that disk in all else.
#[derive(Drop)]
pub(crate) struct Metered<'a, R, D: Disk> {
    disk: D,
    meter: &'a Meter<'a, R>,
}

impl<'a, R, D: Disk> Model for Metered<'a, R, D> {
    ghost Value = { D };

    ghost view = { λ m. m.disk };
}

impl<'a, R, D: Disk> Metered<'a, R, D> {
    /// This disk, counted by that meter.
    pub(crate) fn new(disk: D, meter: &'a Meter<'a, R>) -> Metered<'a, R, D>
        ensures { result ≡ disk }
    {
        Metered { disk, meter }
    }

    /// The disk.
    pub(crate) fn disk(&self) -> &D
        ensures { result.now ≡ self.now }
    {
        &self.disk
    }
}

impl<'a, R: Clock + Eprint, D: Disk> Disk for Metered<'a, R, D> {
    ghost told = { D.told };

    ghost state = { D.state };

    ghost fault_count = { D.fault_count };

    ghost byte_count = { D.byte_count };

    ghost leads_to = { D.leads_to };

    fn size(&self) -> u64 {
        self.disk.size()
    }

    fn faults(&self) -> u64 {
        self.disk.faults()
    }

    fn read(&mut self, at: u64, buf: &mut [u8]) -> Result<(), DiskFailed> {
        self.disk.read(at, buf)
    }

    fn write(&mut self, at: u64, bytes: &[u8]) -> Result<(), DiskFailed> {
        self.disk.write(at, bytes)
    }

    fn sync(&mut self) -> Result<(), DiskFailed> {
        self.meter.count_sync();
        self.disk.sync()
    }

    fn power_cut(&mut self) -> Result<(), DiskFailed> {
        self.disk.power_cut()
    }

    ghost sized = { λ disk told. D.sized disk told };

    ghost leads_nowhere = { λ disk. D.leads_nowhere disk };

    ghost leads_on = { λ first second third. D.leads_on first second third };
}
