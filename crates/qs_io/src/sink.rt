//! What bytes are given to.
ghost use Rattle.std.specs.Prelude.{ℕ, ◌<◌, List, Option, IfOk, length};
ghost use Rattle.std.specs.Io.{WritesAtMost};
ghost use Rattle.std.specs.Io.KnownBytes.{WriteAppends};
ghost use Rattle.qs_base.specs.Causes.{HasCause};

use crate::faults::WriteFailed;

/// A sink of bytes, which may tell what it was given, and counts its faults up to 2^64 - 1.
pub trait Sink {
    ghost given: { Self → Option (List ℕ) };

    ghost faults: { Self → ℕ };

    /// Takes a front of `part` and answers its length in bytes, at least 1 for a part that is not
    /// empty. `WriteFailed` comes only where the count of faults rose, or stands at 2^64 - 1, and
    /// then nothing was taken.
    fn give(&mut self, part: &[u8]) -> Result<usize, WriteFailed>
        ensures bound { WritesAtMost result part.now }
        ensures some { IfOk result (λ n. 0 < length part.now → 0 < n) }
        ensures bytes { WriteAppends (given self.old) (given self.new) result part.now }
        ensures cause { HasCause (faults self.old) (faults self.new) result };
}
