//! A write that is on the disk once it returned.
ghost use Rattle.std.specs.Prelude.{◌≡◌, ◌≤◌, ◌+◌, length, OnOk, OnErr};
ghost use Rattle.qs_base.specs.Causes.{HasCause};
ghost use Rattle.qs_disk.specs.Disk.{IsImage, IsStill, Torn, with_range};
ghost use Rattle.qs_disk.specs.Moments.{Keeps};

use crate::disk::{Disk, DiskFailed};

/// Writes the bytes from `at` on, and syncs: two disk calls. At each moment an image has any bytes
/// in the range, and the old ones elsewhere. `DiskFailed` comes only where the disk's count of faults
/// rose, and a power cut may still leave the bytes of before then.
pub fn write_through<D: Disk>(disk: &mut D, at: u64, bytes: &[u8]) -> Result<(), DiskFailed>
    requires in_range { at + length bytes.now ≤ D.byte_count disk.old }
    requires still { D.told → IsStill (D.state disk.old) }
    ensures moments { D.told → Keeps (Torn at (length bytes.now) (D.state disk.old).content) (D.state disk.old) (D.state disk.new) }
    ensures still { D.told → OnOk result (IsStill (D.state disk.new)) }
    ensures written { D.told → OnOk result ((D.state disk.new).content ≡ with_range (D.state disk.old).content at bytes.now) }
    ensures kept { D.told → OnErr result (IsImage (D.state disk.new).now (D.state disk.old).content) }
    ensures size { D.byte_count disk.new ≡ D.byte_count disk.old }
    ensures cause { HasCause (D.fault_count disk.old) (D.fault_count disk.new) result }
    ensures leads { D.leads_to disk.old disk.new }
{
    // A power cut may leave the content.
    let _size = disk.size();
    disk.write(at, bytes)?;
    disk.sync()
}
