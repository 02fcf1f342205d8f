//! The file of a disk: opened, locked, and made whole where it is new.
use crate::disk_file::DiskFile;
use crate::file_disk::BYTES;
use crate::trouble::Trouble;
use std::fs::{File, Files, OpenFile, OpenOptions, TryLockError};
use std::io;
use std::io::Write;
use std::path::Path;

/// How many zeros are written at once.
const PIECE: u64 = 65_536;

/// So many zeros.
static ZEROS: [u8; 65_536] = [0; 65_536];

/// Opens the file of this path, which is made where there is none, and locks it before anything is read or written. An
/// empty one gets the length of a disk, all zeros; one of another length is not changed.
pub(crate) fn open_disk<R: Files>(rt: &R, path: &str) -> Result<R::File, Trouble>
where
    R::File: DiskFile,
{
    let mut file = OpenOptions::new()
        .read(true)
        .write(true)
        .create(true)
        .open(rt, path)?;
    if !file.metadata()?.is_file() {
        return Err(Trouble::NotAFile);
    }
    lock(&file)?;
    match file.metadata()?.len() {
        BYTES => {}
        0 => make(&mut file)?,
        bytes => return Err(Trouble::Length(bytes)),
    }
    sync_folder(rt, path)?;
    Ok(file)
}

/// Locks the file, if no other open of it is.
fn lock(file: &impl DiskFile) -> Result<(), Trouble> {
    match file.try_lock() {
        Ok(()) => Ok(()),
        Err(TryLockError::WouldBlock) => Err(Trouble::InUse),
        Err(TryLockError::Error(error)) => Err(Trouble::System(error)),
    }
}

/// Makes a disk of an empty file, which is empty again where this fails.
fn make<F: OpenFile + Write>(file: &mut F) -> io::Result<()> {
    let made = fill(file);
    if made.is_err() {
        let _ = file.set_len(0);
    }
    made
}

/// Gives the file the length of a disk in one step, and then writes its zeros. A program that is killed meanwhile leaves
/// a file that is empty, or one of full length that reads as zeros.
fn fill<F: OpenFile + Write>(file: &mut F) -> io::Result<()> {
    file.set_len(BYTES)?;
    for _ in 0..BYTES / PIECE {
        file.write_all(&ZEROS)?;
    }
    file.sync_all()
}

/// Sees to it that the folder of this path keeps the name of the file, also where an earlier program was killed before
/// it did.
fn sync_folder<R: Files>(rt: &R, path: &str) -> io::Result<()> {
    let folder = match Path::new(path).parent() {
        Some(folder) if !folder.as_str().is_empty() => folder,
        _ => Path::new("."),
    };
    File::open(rt, folder)?.sync_all()
}
