//! Which sizes a disk may have.
ghost use Rattle.std.specs.Prelude.{◌↔◌, IsTrue};
ghost use Rattle.qs_disk.specs.Disk.{IsSize};

/// Whether a disk may have so many bytes: a multiple of 4,096 from 65,536 to 16,777,216.
pub fn is_size(size: u64) -> bool
    ensures { IsTrue result ↔ IsSize size }
{
    size % 4_096 == 0 && 65_536 <= size && size <= 16_777_216
}
