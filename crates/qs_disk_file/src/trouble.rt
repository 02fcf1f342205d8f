//! Why a file is no disk, or failed.
use crate::file_disk::BYTES;
use std::io;
use thiserror::Error;

/// Why a call on a disk over a file failed.
#[derive(Clone, Copy, Debug, Error)]
pub enum Trouble {
    /// Another program holds the lock of the file.
    #[error("in use by another program")]
    InUse,
    /// What has the name is a folder, a device or the like.
    #[error("not a regular file")]
    NotAFile,
    /// The file has so many bytes, and a disk has others.
    #[error("has {0} bytes in place of {BYTES}")]
    Length(u64),
    /// The system said this.
    #[error("{0}")]
    System(#[from] io::Error),
}
