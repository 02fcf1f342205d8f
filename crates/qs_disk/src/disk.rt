//! A disk, as the layers above it see it.
ghost use Rattle.std.specs.Prelude.{◌≡◌, ◌≤◌, ◌+◌, ℕ, length, is_ok};
ghost use Rattle.qs_base.specs.Causes.{HasCause};
ghost use Rattle.qs_disk.specs.Disk.{DiskState, IsImage, IsSize, Reads, Writes, Syncs, Cuts};

use thiserror::Error;

/// A disk call failed. The disk's count of faults rose, or stands at 2^64 - 1.
#[derive(Clone, Copy, Debug, PartialEq, Eq, Error)]
#[error("a disk call failed")]
pub struct DiskFailed;

/// A disk of fixed size that a power cut may interrupt at any moment.
///
/// Between two syncs each range that was written may hold any bytes in an image, those of before too,
/// also where the write failed; other bytes are those of the last sync. So whatever a power cut might
/// have left, it may leave still, until a sync or a power cut returns. The content is one of the
/// images at each moment between two calls (`size` says so). What `state` says of content and images
/// is promised where `told` holds, as it does of disks in memory.
pub trait Disk {
    /// Whether content and images are told.
    ghost told: { Type 0 };

    /// The content, and the images now and at each moment before.
    ghost state: { Self → DiskState };

    /// How many calls failed, at most 2^64 - 1.
    ghost fault_count: { Self → ℕ };

    /// How many bytes it has.
    ghost byte_count: { Self → ℕ };

    /// What calls, one after the other, may make of it.
    ghost leads_to: { Self → Self → Type 0 };

    /// How many bytes it has, which never changes: a multiple of 4,096 from 65,536 to 16,777,216.
    fn size(&self) -> u64
        ensures value { result ≡ byte_count self.now }
        ensures allowed { IsSize result }

        // A power cut may leave the content.
        ensures image { told → IsImage (state self.now).now (state self.now).content };

    /// How many calls failed, at most 2^64 - 1.
    fn faults(&self) -> u64
        ensures { result ≡ fault_count self.now };

    /// Fills the buffer with the bytes from `at` on. `DiskFailed` comes only where the count of
    /// faults rose in this call; nothing is said of the buffer then.
    fn read(&mut self, at: u64, buf: &mut [u8]) -> Result<(), DiskFailed>
        requires { at + length buf.old ≤ byte_count self.old }
        ensures state { told → Reads at buf.new (is_ok result) (state self.old) (state self.new) }
        ensures size { byte_count self.new ≡ byte_count self.old }
        ensures cause { HasCause (fault_count self.old) (fault_count self.new) result }
        ensures leads { leads_to self.old self.new };

    /// Writes the bytes from `at` on. `DiskFailed` comes only where the count of faults rose in this
    /// call; any bytes may then stand in the range.
    fn write(&mut self, at: u64, bytes: &[u8]) -> Result<(), DiskFailed>
        requires { at + length bytes.now ≤ byte_count self.old }
        ensures state { told → Writes at bytes.now (is_ok result) (state self.old) (state self.new) }
        ensures size { byte_count self.new ≡ byte_count self.old }
        ensures cause { HasCause (fault_count self.old) (fault_count self.new) result }
        ensures leads { leads_to self.old self.new };

    /// After it the content is the only image. `DiskFailed` comes only where the count of faults rose
    /// in this call; no image of before is lost then.
    fn sync(&mut self) -> Result<(), DiskFailed>
        ensures state { told → Syncs (is_ok result) (state self.old) (state self.new) }
        ensures size { byte_count self.new ≡ byte_count self.old }
        ensures cause { HasCause (fault_count self.old) (fault_count self.new) result }
        ensures leads { leads_to self.old self.new };

    /// Cuts the power: leaves one image, which is then the content and the only image. `DiskFailed`
    /// comes only where the count of faults rose in this call; no image of before is lost then.
    fn power_cut(&mut self) -> Result<(), DiskFailed>
        ensures state { told → Cuts (is_ok result) (state self.old) (state self.new) }
        ensures size { byte_count self.new ≡ byte_count self.old }
        ensures cause { HasCause (fault_count self.old) (fault_count self.new) result }
        ensures leads { leads_to self.old self.new };

    /// The content has as many bytes as the disk.
    ghost sized: { (disk : Self) → told → length (state disk).content ≡ byte_count disk };

    /// No call makes nothing of it.
    ghost leads_nowhere: { (disk : Self) → leads_to disk disk };

    /// Calls behind others are calls.
    ghost leads_on: { (first second third : Self) → leads_to first second → leads_to second third → leads_to first third };
}
