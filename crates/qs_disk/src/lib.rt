//! Disks: their content, and the images that a power cut may leave at each moment.
#![tactic(auto)]

mod calls;
mod cells;
mod disk;
mod fuse;
mod fused;
mod mem_disk;
mod past;
mod size;
mod through;

pub use disk::{Disk, DiskFailed};
pub use fused::Fused;
pub use mem_disk::MemDisk;
pub use size::is_size;
pub use through::write_through;
