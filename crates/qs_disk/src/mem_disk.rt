//! A disk in memory.
ghost use Rattle.std.specs.Prelude.{◌≡◌, ◌≤◌, ◌+◌, length, replicate, ⊤, is_ok, IfOk, OnErr, refl};
ghost use Rattle.qs_base.specs.Causes.{HasCause};
ghost use Rattle.qs_disk.specs.Disk.{EachImage, IsSize, Reads, Writes, Syncs, Cuts};
ghost use Rattle.qs_disk.specs.Memory.{IsFresh, IsCounted, IsUntouched, later};

use crate::calls::Calls;
use crate::cells::Cells;
use crate::disk::{Disk, DiskFailed};
use crate::past::Past;
use qs_base::NoMemory;
use rand_pcg::Lcg64Xsh32;
use std::alloc::Global;
use std::marker::Model;

/// A disk in memory. Reads, writes, syncs and power cuts are numbered together from 1, and those
/// whose numbers stand in its list fail and change nothing. It takes all its memory when it is made.
///
/// A write, a sync or a power cut takes time by the range that was written since the last sync, and
/// not by the size. A power cut draws each byte that was written since: the old one, the new one, or
/// any byte.
#[derive(Drop)]
pub struct MemDisk {
    cells: Cells,
    past: Past,
    calls: Calls,
    rng: Lcg64Xsh32,
}

impl Model for MemDisk {
    ghost use Rattle.std.specs.Prelude.{length};
    ghost use Rattle.qs_disk.specs.Disk.{IsSize};
    ghost use Rattle.qs_disk.specs.Memory.{MemoryValue};

    ghost Value = { MemoryValue };

    ghost view = { λ d. record { disk = record { content = d.cells.content; now = d.cells.now; past = d.past }; fail = d.calls.fail.items; calls = d.calls.calls; faults = d.calls.faults } };

    ghost invariant = { λ d. IsSize (length d.cells.content) };
}

impl MemDisk {
    /// A disk of so many zero bytes, whose calls with the numbers of `fail`, from 1, fail. `seed`
    /// decides what power cuts leave. `NoMemory` comes where memory was asked for and refused.
    pub fn new(alloc: Global, size: u64, seed: u64, fail: &[u64]) -> Result<MemDisk, NoMemory>
        requires { IsSize size }
        ensures fresh { IfOk result (λ disk. IsFresh (replicate size 0) fail.now disk) }
        ensures count { IfOk result (λ disk. length disk.disk.content ≡ size) }
    {
        let cells = Cells::zeros(alloc, size as usize)?;
        MemDisk::over(alloc, cells, seed, fail)
    }

    /// A disk that holds these bytes, else as `new` makes it. `NoMemory` comes where memory was
    /// asked for and refused.
    pub fn from_bytes(
        alloc: Global,
        bytes: &[u8],
        seed: u64,
        fail: &[u64],
    ) -> Result<MemDisk, NoMemory>
        requires { IsSize (length bytes.now) }
        ensures { IfOk result (λ disk. IsFresh bytes.now fail.now disk) }
    {
        let cells = Cells::from_bytes(alloc, bytes)?;
        MemDisk::over(alloc, cells, seed, fail)
    }

    fn over(alloc: Global, cells: Cells, seed: u64, fail: &[u64]) -> Result<MemDisk, NoMemory>
        requires size { IsSize (length cells.content) }
        requires still { EachImage (λ c. c ≡ cells.content) cells.now }
        ensures { IfOk result (λ disk. IsFresh cells.content fail.now disk) }
    {
        Ok(MemDisk {
            cells,
            past: Past::new(),
            calls: Calls::new(alloc, fail)?,
            rng: Lcg64Xsh32::new(seed, 0),
        })
    }

    // Notes the moment, numbers the call, and fails where its number is to fail.
    fn begin(&mut self) -> Result<(), DiskFailed>
        ensures counted { IsCounted self.old self.new result }
        ensures cause { HasCause self.old.faults self.new.faults result }
        ensures disk { self.new.disk ≡ later self.old.disk }
    {
        self.past.note(&self.cells);
        if self.calls.fails() {
            return Err(DiskFailed);
        }
        Ok(())
    }

    /// The content.
    pub fn bytes(&self) -> &[u8]
        ensures { result.now ≡ self.now.disk.content }
    {
        self.cells.content()
    }
}

impl Disk for MemDisk {
    ghost told = { ⊤ };

    ghost state = { λ d. d.disk };

    ghost fault_count = { λ d. d.faults };

    ghost byte_count = { λ d. length d.disk.content };

    // Nothing is told of it.
    ghost leads_to = { λ _ _. ⊤ };

    fn size(&self) -> u64 {
        self.cells.content().len() as u64
    }

    fn faults(&self) -> u64 {
        self.calls.faults()
    }

    fn read(&mut self, at: u64, buf: &mut [u8]) -> Result<(), DiskFailed>
        requires { at + length buf.old ≤ length self.old.disk.content }
        ensures state { Reads at buf.new (is_ok result) self.old.disk self.new.disk }
        ensures size { length self.new.disk.content ≡ length self.old.disk.content }
        ensures cause { HasCause self.old.faults self.new.faults result }
        ensures leads { ⊤ }
        ensures counted { IsCounted self.old self.new result }
        ensures untouched { IsUntouched self.old.disk self.new.disk }
    {
        self.begin()?;
        self.cells.read(at as usize, buf);
        Ok(())
    }

    fn write(&mut self, at: u64, bytes: &[u8]) -> Result<(), DiskFailed>
        requires { at + length bytes.now ≤ length self.old.disk.content }
        ensures state { Writes at bytes.now (is_ok result) self.old.disk self.new.disk }
        ensures size { length self.new.disk.content ≡ length self.old.disk.content }
        ensures cause { HasCause self.old.faults self.new.faults result }
        ensures leads { ⊤ }
        ensures counted { IsCounted self.old self.new result }
        ensures untouched { OnErr result (IsUntouched self.old.disk self.new.disk) }
    {
        self.begin()?;
        self.cells.write(at as usize, bytes);
        Ok(())
    }

    fn sync(&mut self) -> Result<(), DiskFailed>
        ensures state { Syncs (is_ok result) self.old.disk self.new.disk }
        ensures size { length self.new.disk.content ≡ length self.old.disk.content }
        ensures cause { HasCause self.old.faults self.new.faults result }
        ensures leads { ⊤ }
        ensures counted { IsCounted self.old self.new result }
        ensures untouched { OnErr result (IsUntouched self.old.disk self.new.disk) }
    {
        self.begin()?;
        self.cells.sync();
        Ok(())
    }

    fn power_cut(&mut self) -> Result<(), DiskFailed>
        ensures state { Cuts (is_ok result) self.old.disk self.new.disk }
        ensures size { length self.new.disk.content ≡ length self.old.disk.content }
        ensures cause { HasCause self.old.faults self.new.faults result }
        ensures leads { ⊤ }
        ensures counted { IsCounted self.old self.new result }
        ensures untouched { OnErr result (IsUntouched self.old.disk self.new.disk) }
    {
        self.begin()?;
        self.cells.cut(&mut self.rng);
        Ok(())
    }

    ghost sized = { λ d t. refl };

    ghost leads_nowhere = { λ _. tt };

    ghost leads_on = { λ _ _ _ _ _. tt };
}
