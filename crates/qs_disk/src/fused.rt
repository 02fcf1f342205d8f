//! A disk behind a fuse.
ghost use Rattle.std.specs.Prelude.{◌≡◌, ◌≤◌, ◌+◌, length, true, false, is_ok, IsTrue, IsErr};
ghost use Rattle.qs_base.specs.Causes.{HasCause};
ghost use Rattle.qs_disk.specs.Disk.{IsSize, Reads, Writes, Syncs, Cuts};
ghost use Rattle.qs_disk.specs.Fuse.{stops, trips_at, IsPassedOn, GoesOn, after_call, armed, fused_count, mended, new_fuse};
ghost use Rattle.qs_disk.specs.FuseLaws.{goes_nowhere, goes_further};

use crate::disk::{Disk, DiskFailed};
use crate::fuse::Fuse;
use qs_base::List;
use std::marker::Model;

/// A disk behind a fuse that trips at planned calls.
///
/// Before `arm` it passes every call on. From then on it numbers reads, writes and syncs from 1,
/// also those that it refuses. At a call whose number is planned it trips: a write is passed on and
/// its answer dropped, a read or a sync is not passed on, and the answer is `DiskFailed`. It then
/// refuses every read, write and sync until a power cut, which is always passed on.
#[derive(Drop)]
pub struct Fused<D: Disk> {
    disk: D,
    fuse: Fuse,
}

impl<D: Disk> Model for Fused<D> {
    ghost use Rattle.qs_disk.specs.Fuse.{FusedValue};

    ghost Value = { FusedValue D };

    ghost view = { λ f. record { disk = f.disk; fuse = f.fuse } };
}

impl<D: Disk> Fused<D> {
    /// This disk, with nothing planned.
    pub fn new(disk: D) -> Fused<D>
        ensures { result ≡ record { disk = disk; fuse = new_fuse } }
    {
        Fused {
            disk,
            fuse: Fuse::new(),
        }
    }

    /// Plans the numbers of the calls to trip at: the next read, write or sync is number 1. What has
    /// tripped before is forgotten, and calls are passed on again.
    pub fn arm(&mut self, plan: List<u64>)
        ensures disk { self.new.disk ≡ self.old.disk }
        ensures fuse { self.new.fuse ≡ armed plan }
    {
        self.fuse.arm(plan);
    }

    /// How many calls the fuse tripped at or refused since it was armed last, at most 2^64 - 1.
    pub fn trips(&self) -> u64
        ensures { result ≡ self.now.fuse.trips }
    {
        self.fuse.trips()
    }

    /// How many calls the disk behind it failed, at most 2^64 - 1.
    pub fn own_faults(&self) -> u64
        ensures { result ≡ D.fault_count self.now.disk }
    {
        self.disk.faults()
    }

    /// The disk behind it.
    pub fn into_inner(self) -> D
        ensures { result ≡ self.disk }
    {
        let Fused { disk, fuse: _ } = self;
        disk
    }
}

impl<D: Disk> Disk for Fused<D> {
    ghost told = { D.told };

    ghost state = { λ f. D.state f.disk };

    ghost fault_count = { fused_count D.fault_count };

    ghost byte_count = { λ f. D.byte_count f.disk };

    // Nothing of the disk behind it: the fuse keeps its plan, and trips at planned calls alone.
    ghost leads_to = { λ old new. GoesOn old.fuse new.fuse };

    fn size(&self) -> u64 {
        self.disk.size()
    }

    fn faults(&self) -> u64 {
        self.fuse.trips().saturating_add(self.disk.faults())
    }

    fn read(&mut self, at: u64, buf: &mut [u8]) -> Result<(), DiskFailed>
        requires { at + length buf.old ≤ D.byte_count self.old.disk }
        ensures state { D.told → Reads at buf.new (is_ok result) (D.state self.old.disk) (D.state self.new.disk) }
        ensures size { D.byte_count self.new.disk ≡ D.byte_count self.old.disk }
        ensures cause { HasCause (fused_count D.fault_count self.old) (fused_count D.fault_count self.new) result }
        ensures leads { GoesOn self.old.fuse self.new.fuse }

        // Where the fuse lets it pass, the disk's answer is given; else the disk is left alone.
        ensures fuse { self.new.fuse ≡ after_call self.old.fuse }
        ensures passed { stops self.old.fuse ≡ false → HasCause (D.fault_count self.old.disk) (D.fault_count self.new.disk) result }
        ensures stopped { stops self.old.fuse ≡ true → IsErr result }
        ensures kept { stops self.old.fuse ≡ true → self.new.disk ≡ self.old.disk }
    {
        if self.fuse.stops() {
            return Err(DiskFailed);
        }
        self.disk.read(at, buf)
    }

    fn write(&mut self, at: u64, bytes: &[u8]) -> Result<(), DiskFailed>
        requires { at + length bytes.now ≤ D.byte_count self.old.disk }
        ensures state { D.told → Writes at bytes.now (is_ok result) (D.state self.old.disk) (D.state self.new.disk) }
        ensures size { D.byte_count self.new.disk ≡ D.byte_count self.old.disk }
        ensures cause { HasCause (fused_count D.fault_count self.old) (fused_count D.fault_count self.new) result }
        ensures leads { GoesOn self.old.fuse self.new.fuse }

        // Where the fuse lets it pass, the disk's answer is given; where it trips, the write is
        // passed on; else the disk is left alone.
        ensures fuse { self.new.fuse ≡ after_call self.old.fuse }
        ensures passed { stops self.old.fuse ≡ false → HasCause (D.fault_count self.old.disk) (D.fault_count self.new.disk) result }
        ensures stopped { stops self.old.fuse ≡ true → IsErr result }
        ensures tripped { D.told → trips_at self.old.fuse ≡ true → IsPassedOn at bytes.now (D.state self.old.disk) (D.state self.new.disk) (D.fault_count self.old.disk) (D.fault_count self.new.disk) }
        ensures later { D.fault_count self.old.disk ≤ D.fault_count self.new.disk }
        ensures kept { self.old.fuse.blown ≡ true → self.new.disk ≡ self.old.disk }
    {
        let was_blown = self.fuse.is_blown();
        let stops = self.fuse.stops();
        if stops && was_blown {
            return Err(DiskFailed);
        }
        self.disk.write(at, bytes)?;
        if stops {
            return Err(DiskFailed);
        }
        Ok(())
    }

    fn sync(&mut self) -> Result<(), DiskFailed>
        ensures state { D.told → Syncs (is_ok result) (D.state self.old.disk) (D.state self.new.disk) }
        ensures size { D.byte_count self.new.disk ≡ D.byte_count self.old.disk }
        ensures cause { HasCause (fused_count D.fault_count self.old) (fused_count D.fault_count self.new) result }
        ensures leads { GoesOn self.old.fuse self.new.fuse }

        // Where the fuse lets it pass, the disk's answer is given; else the disk is left alone.
        ensures fuse { self.new.fuse ≡ after_call self.old.fuse }
        ensures passed { stops self.old.fuse ≡ false → HasCause (D.fault_count self.old.disk) (D.fault_count self.new.disk) result }
        ensures stopped { stops self.old.fuse ≡ true → IsErr result }
        ensures kept { stops self.old.fuse ≡ true → self.new.disk ≡ self.old.disk }
    {
        if self.fuse.stops() {
            Err(DiskFailed)
        } else {
            self.disk.sync()
        }
    }

    fn power_cut(&mut self) -> Result<(), DiskFailed>
        ensures state { D.told → Cuts (is_ok result) (D.state self.old.disk) (D.state self.new.disk) }
        ensures size { D.byte_count self.new.disk ≡ D.byte_count self.old.disk }
        ensures cause { HasCause (fused_count D.fault_count self.old) (fused_count D.fault_count self.new) result }
        ensures leads { GoesOn self.old.fuse self.new.fuse }

        // The disk's answer is given, and the fuse is mended.
        ensures fuse { self.new.fuse ≡ mended self.old.fuse }
        ensures passed { HasCause (D.fault_count self.old.disk) (D.fault_count self.new.disk) result }
    {
        self.fuse.mend();
        self.disk.power_cut()
    }

    ghost sized = { λ f told. D.sized f.disk told };

    ghost leads_nowhere = { λ f. goes_nowhere f.fuse };

    ghost leads_on = { λ first second third. goes_further first.fuse second.fuse third.fuse };
}
