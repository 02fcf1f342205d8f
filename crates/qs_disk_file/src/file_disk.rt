//! A disk over a file of the system.
ghost use Rattle.std.specs.Prelude.{◌≡◌, ◌≤◌, ◌+◌, length, ⊤, is_ok, IfOk, OnOk, OnErr, IsSome, None};
ghost use Rattle.qs_base.specs.Causes.{HasCause};
ghost use Rattle.qs_disk.specs.Disk.{Reads, Writes, Syncs, Cuts};
ghost use Rattle.qs_disk.specs.Memory.{raised};
ghost use Rattle.qs_disk_file.specs.File.{FileValue, file_bytes, file_state};

use crate::disk_file::DiskFile;
use crate::opening::open_disk;
use crate::trouble::Trouble;
use qs_base::NoMemory;
use qs_disk::{Disk, DiskFailed};
use std::alloc::Global;
use std::fs::{Files, OpenFile};
use std::marker::Model;
use std::os::unix::fs::FileExt;

/// How many bytes it has.
pub(crate) const BYTES: u64 = 16_777_216;

/// A disk of 16,777,216 bytes over the file of a path, which is opened, and made where there is none or an empty one,
/// at the first use. From then on it is locked until the disk is dropped. A file that another program holds, or another
/// disk of this one, and one of another length are not read or written, and each call on them fails. A power cut leaves
/// the file open, so that it is never without the lock, and changes nothing. Each call in which the system fails raises
/// the count of faults.
///
/// Its content is not told: no contract can say what a file holds.
#[derive(Drop)]
pub struct FileDisk<R: Files> {
    runtime: R,
    path: String,
    file: Option<R::File>,
    faults: u64,
    trouble: Option<Trouble>,
}

impl<R: Files> Model for FileDisk<R> {
    ghost use Rattle.std.specs.Prelude.{string_bytes};
    ghost use Rattle.qs_disk_file.specs.File.{FileValue};

    ghost Value = { FileValue };

    ghost view = { λ d. record { path = string_bytes d.path; faults = d.faults; trouble = d.trouble } };
}

impl<R: Files> FileDisk<R> {
    /// A disk over the file of this path, which is not opened yet, with no fault so far. `NoMemory`
    /// comes where memory was refused.
    pub fn new(runtime: R, alloc: Global, path: &str) -> Result<FileDisk<R>, NoMemory>
    where
        R: Drop,
        ensures { IfOk result (λ d. d ≡ record { path = path.now; faults = 0; trouble = None }) }
    {
        Ok(FileDisk {
            runtime,
            path: String::from_str(alloc, path)?,
            file: None,
            faults: 0,
            trouble: None,
        })
    }

    /// The path of its file.
    pub fn path(&self) -> &str
        ensures { result.now ≡ self.now.path }
    {
        self.path.as_str()
    }

    /// Why the last call that failed did, if one failed.
    pub fn trouble(&self) -> Option<Trouble>
        ensures { result ≡ self.now.trouble }
    {
        self.trouble
    }
}

impl<R: Files> FileDisk<R>
where
    R::File: DiskFile,
{
    // The open file, out of its place; it is opened where it is not.
    fn take_file(&mut self) -> Result<R::File, Trouble>
        ensures { self.new ≡ self.old }
    {
        match self.file.take() {
            Some(file) => Ok(file),
            None => open_disk(&self.runtime, self.path.as_str()),
        }
    }

    fn read_file(&mut self, at: u64, buf: &mut [u8]) -> Result<(), Trouble>
        ensures { self.new ≡ self.old }
    {
        let file = self.take_file()?;
        let done = file.read_exact_at(buf, at);
        self.file = Some(file);
        Ok(done?)
    }

    fn write_file(&mut self, at: u64, bytes: &[u8]) -> Result<(), Trouble>
        ensures { self.new ≡ self.old }
    {
        let file = self.take_file()?;
        let done = file.write_all_at(bytes, at);
        self.file = Some(file);
        Ok(done?)
    }

    fn sync_file(&mut self) -> Result<(), Trouble>
        ensures { self.new ≡ self.old }
    {
        let file = self.take_file()?;
        // Its length has been synced as it was made, and never changes.
        let done = file.sync_data();
        self.file = Some(file);
        Ok(done?)
    }

    // The file is open, and stays so where it was.
    fn hold_file(&mut self) -> Result<(), Trouble>
        ensures { self.new ≡ self.old }
    {
        let file = self.take_file()?;
        self.file = Some(file);
        Ok(())
    }

    // The answer of a call that came out so, counted.
    fn counted(&mut self, done: Result<(), Trouble>) -> Result<(), DiskFailed>
        ensures path { self.new.path ≡ self.old.path }
        ensures quiet { OnOk result (self.new ≡ self.old) }
        ensures counted { OnErr result (self.new.faults ≡ raised self.old.faults) }
        ensures told { OnErr result (IsSome self.new.trouble) }
        ensures cause { HasCause self.old.faults self.new.faults result }
        ensures answer { is_ok result ≡ is_ok done }
    {
        match done {
            Ok(()) => Ok(()),
            Err(trouble) => {
                self.faults = self.faults.saturating_add(1);
                self.trouble = Some(trouble);
                Err(DiskFailed)
            }
        }
    }
}

impl<R: Files> Disk for FileDisk<R>
where
    R::File: DiskFile,
{
    ghost told = { ⊥ };

    ghost state = { file_state };

    ghost fault_count = { λ d. d.faults };

    ghost byte_count = { file_bytes };

    // Nothing is told of it.
    ghost leads_to = { λ _ _. ⊤ };

    fn size(&self) -> u64 {
        BYTES
    }

    fn faults(&self) -> u64 {
        self.faults
    }

    fn read(&mut self, at: u64, buf: &mut [u8]) -> Result<(), DiskFailed>
        requires { at + length buf.old ≤ file_bytes self.old }
        ensures state { ⊥ → Reads at buf.new (is_ok result) (file_state self.old) (file_state self.new) }
        ensures size { file_bytes self.new ≡ file_bytes self.old }
        ensures cause { HasCause self.old.faults self.new.faults result }
        ensures leads { ⊤ }

        // A call that fails is counted, with why it did, and nothing else is; the path stays.
        ensures quiet { OnOk result (self.new ≡ self.old) }
        ensures counted { OnErr result (self.new ≡ record self.old { faults = raised self.old.faults; trouble = self.new.trouble }) }
        ensures told { OnErr result (IsSome self.new.trouble) }
    {
        let done = self.read_file(at, buf);
        self.counted(done)
    }

    fn write(&mut self, at: u64, bytes: &[u8]) -> Result<(), DiskFailed>
        requires { at + length bytes.now ≤ file_bytes self.old }
        ensures state { ⊥ → Writes at bytes.now (is_ok result) (file_state self.old) (file_state self.new) }
        ensures size { file_bytes self.new ≡ file_bytes self.old }
        ensures cause { HasCause self.old.faults self.new.faults result }
        ensures leads { ⊤ }

        // A call that fails is counted, with why it did, and nothing else is; the path stays.
        ensures quiet { OnOk result (self.new ≡ self.old) }
        ensures counted { OnErr result (self.new ≡ record self.old { faults = raised self.old.faults; trouble = self.new.trouble }) }
        ensures told { OnErr result (IsSome self.new.trouble) }
    {
        let done = self.write_file(at, bytes);
        self.counted(done)
    }

    fn sync(&mut self) -> Result<(), DiskFailed>
        ensures state { ⊥ → Syncs (is_ok result) (file_state self.old) (file_state self.new) }
        ensures size { file_bytes self.new ≡ file_bytes self.old }
        ensures cause { HasCause self.old.faults self.new.faults result }
        ensures leads { ⊤ }

        // A call that fails is counted, with why it did, and nothing else is; the path stays.
        ensures quiet { OnOk result (self.new ≡ self.old) }
        ensures counted { OnErr result (self.new ≡ record self.old { faults = raised self.old.faults; trouble = self.new.trouble }) }
        ensures told { OnErr result (IsSome self.new.trouble) }
    {
        let done = self.sync_file();
        self.counted(done)
    }

    fn power_cut(&mut self) -> Result<(), DiskFailed>
        ensures state { ⊥ → Cuts (is_ok result) (file_state self.old) (file_state self.new) }
        ensures size { file_bytes self.new ≡ file_bytes self.old }
        ensures cause { HasCause self.old.faults self.new.faults result }
        ensures leads { ⊤ }

        // A call that fails is counted, with why it did, and nothing else is; the path stays.
        ensures quiet { OnOk result (self.new ≡ self.old) }
        ensures counted { OnErr result (self.new ≡ record self.old { faults = raised self.old.faults; trouble = self.new.trouble }) }
        ensures told { OnErr result (IsSome self.new.trouble) }
    {
        let done = self.hold_file();
        self.counted(done)
    }

    ghost sized = { λ d told. absurd told };

    ghost leads_nowhere = { λ _. tt };

    ghost leads_on = { λ _ _ _ _ _. tt };
}
