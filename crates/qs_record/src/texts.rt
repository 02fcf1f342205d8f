//! The texts and numbers of operations, read by a reader that may stand anywhere after a fault.
ghost use Rattle.std.specs.Prelude.{◌∷◌, [], IfOk};
ghost use Rattle.qs_codec.specs.Grammar.{Text, Word};
ghost use Rattle.qs_codec.specs.Reading.{Reads, text_at};
ghost use Rattle.qs_ops.specs.Spelled.{IsText, IsName, IsOpText};
ghost use Rattle.qs_record.specs.Grammar.{SpellsAll};
ghost use Rattle.qs_record.specs.Reading.{FindsIfRoom, Takes, name_and_text_at};

use crate::fault::RecordFault;
use qs_base::Bytes;
use qs_codec::Reader;
use std::alloc::Global;

/// A name has at most 64 bytes.
pub(crate) const NAME_LIMIT: u32 = 64;
/// And the text of an operation at most 4,096.
pub(crate) const TEXT_LIMIT: u32 = 4096;

// A text of at most `max` bytes.
pub(crate) fn take_text(
    alloc: Global,
    reader: &mut Reader<'_>,
    max: u32,
) -> Result<Bytes, RecordFault>
    ensures exact { FindsIfRoom result reader.new (text_at max reader.old) }
    ensures value { IfOk result (λ text. Reads (Text text) reader.old reader.new) }
    ensures valid { IfOk result (IsText max) }
{
    let text = reader.text(max)?;
    Ok(Bytes::from_slice(alloc, text)?)
}

// A name and a text.
#[tactic(auto, using(crate::proofs::Readers::takes_two), unfolding(crate::specs::Reading::name_and_text_at))]
pub(crate) fn take_name_and_text(
    alloc: Global,
    reader: &mut Reader<'_>,
) -> Result<(Bytes, Bytes), RecordFault>
    ensures exact { FindsIfRoom result reader.new (name_and_text_at reader.old) }
    ensures value { IfOk result (λ both. Takes (SpellsAll (Text both.0 ∷ Text both.1 ∷ [])) reader.old reader.new) }
    ensures name { IfOk result (λ both. IsName both.0) }
    ensures text { IfOk result (λ both. IsOpText both.1) }
{
    let name = take_text(alloc, reader, NAME_LIMIT)?;
    let text = take_text(alloc, reader, TEXT_LIMIT)?;
    Ok((name, text))
}
