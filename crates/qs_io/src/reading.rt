//! The text of a source, read to the end or past a limit.
ghost use Rattle.std.specs.Prelude.{◌≡◌, ◌+◌, ◌^◌, ◌≤◌, ◌<◌, ℕ, length, IfOk, Err};
ghost use Rattle.std.specs.Io.KnownBytes.{Consumes};
ghost use Rattle.qs_base.specs.Causes.{Rose};
ghost use Rattle.qs_io.specs.Streams.{TakesAtMost, IsWholeOrLonger};

use crate::faults::ReadFault;
use crate::source::Source;
use qs_base::Bytes;
use std::alloc::Global;

// How many bytes are asked for at a time.
const PIECE: usize = 4096;

/// The source's bytes to its end, or `limit + 1` bytes where it has more than `limit`. It answers
/// `Failed` where the source answered a fault, and `NoMemory` where memory was asked for and refused.
/// Also then at most `limit + 1` bytes were taken, and what was taken is lost.
pub fn read_text<S: Source>(alloc: Global, source: &mut S, limit: usize) -> Result<Bytes, ReadFault>
    requires { limit < 2 ^ 62 }

    // What an `Ok` gives.
    ensures text { IfOk result (λ text. Consumes (S.left source.old) (S.left source.new) text) }
    ensures end { IfOk result (λ text. IsWholeOrLonger (S.left source.new) text limit) }
    ensures few { IfOk result (λ text. length text ≤ limit + 1) }

    // What was taken, whatever the result.
    ensures bound { TakesAtMost (limit + 1) (S.left source.old) (S.left source.new) }

    // The fault and its cause.
    ensures failed { result ≡ Err ReadFault.Failed → Rose (S.faults source.old) (S.faults source.new) }
    ensures later { S.faults source.old ≤ S.faults source.new }
{
    let mut text = Bytes::new(alloc);
    let mut buf = [0; PIECE];
    while text.len() <= limit {
        let wanted = (limit + 1 - text.len()).min(PIECE);
        let count = source.take(&mut buf[..wanted])?;
        if count == 0 {
            return Ok(text);
        }
        text.append(&buf[..count])?;
    }
    Ok(text)
}
