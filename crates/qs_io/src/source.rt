//! What bytes are read from.
ghost use Rattle.std.specs.Prelude.{ℕ, List, Option};
ghost use Rattle.std.specs.Io.{ReadsAtMost};
ghost use Rattle.std.specs.Io.KnownBytes.{ReadConsumes};
ghost use Rattle.qs_base.specs.Causes.{HasCause};

use crate::faults::ReadFailed;

/// A source of bytes, which may tell what is left, and counts its faults up to 2^64 - 1.
pub trait Source {
    ghost left: { Self → Option (List ℕ) };

    ghost faults: { Self → ℕ };

    /// Fills a front of `buf` with the next bytes and answers how many, in bytes. 0 on a buffer that
    /// is not empty means the end. `ReadFailed` comes only where the count of faults rose, or stands
    /// at 2^64 - 1, and leaves what is left unchanged.
    fn take(&mut self, buf: &mut [u8]) -> Result<usize, ReadFailed>
        ensures bound { ReadsAtMost result buf.new }
        ensures bytes { ReadConsumes (left self.old) (left self.new) result buf.new }
        ensures cause { HasCause (faults self.old) (faults self.new) result };
}
