//! Disks over files.
#![tactic(auto)]

mod disk_file;
mod file_disk;
mod opening;
mod trouble;

pub use disk_file::DiskFile;
pub use file_disk::FileDisk;
pub use trouble::Trouble;
