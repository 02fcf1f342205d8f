//! Files that a disk stands on.
use std::fs::{File, TryLockError};
use std::os::unix::fs::FileExt;

/// An open file that is read and written at a place, and can be locked. The lock of a file lasts until the file is closed, also where
/// its program is killed.
pub trait DiskFile: FileExt {
    /// Takes the lock that no other open of the file may hold meanwhile, without waiting: `WouldBlock` comes where
    /// another holds it.
    fn try_lock(&self) -> Result<(), TryLockError>;
}

impl DiskFile for File {
    fn try_lock(&self) -> Result<(), TryLockError> {
        File::try_lock(self)
    }
}
