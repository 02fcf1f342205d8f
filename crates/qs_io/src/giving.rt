//! A whole text given to a sink, piece by piece.
ghost use Rattle.std.specs.Prelude.{ℕ, List, Option, OnOk, OnErr};
ghost use Rattle.std.specs.Io.KnownBytes.{Appends};
ghost use Rattle.qs_base.specs.Causes.{HasCause};
ghost use Rattle.qs_io.specs.Streams.{GivesPart};

use crate::faults::WriteFailed;
use crate::sink::Sink;

/// Gives all of the text to the sink. `WriteFailed` comes where a call on the sink failed; then a
/// front of the text was given and nothing else.
pub fn give_all<K: Sink>(sink: &mut K, text: &[u8]) -> Result<(), WriteFailed>
    ensures all { OnOk result (Appends (K.given sink.old) (K.given sink.new) text.now) }
    ensures part { OnErr result (GivesPart (K.given sink.old) (K.given sink.new) text.now) }
    ensures cause { HasCause (K.faults sink.old) (K.faults sink.new) result }
{
    let mut rest = text;
    while !rest.is_empty() {
        let count = sink.give(rest)?;
        let (_, left) = rest.split_at(count);
        rest = left;
    }
    Ok(())
}
