//! Where a reader stands, for the faults that it does not tell itself.
ghost use Rattle.std.specs.Prelude.{◌≡◌, true, false, MatchResult};
ghost use Rattle.qs_codec.specs.declared.fault.CodecFault.TheVariants.{Short, BadTag};

use qs_codec::{CodecFault, Reader};

// How many bytes lie before the reader's place. A reader tells what is left, and its place by a
// fault alone: so a second one goes on to the end, where it is short. Only faults ask for it.
fn place(reader: &Reader<'_>) -> u64
    ensures { result ≡ reader.now.at }
{
    let mut end = reader.ahead();
    while end.u8().is_ok() {}
    match end.u8() {
        Err(CodecFault::Short { at, .. }) => at - reader.left() as u64,
        _ => unreachable!(),
    }
}

// The tag, which stands at the reader's place, is no value's.
pub(crate) fn bad_tag(reader: &Reader<'_>, tag: u8) -> CodecFault
    ensures { result ≡ BadTag reader.now.at tag }
{
    CodecFault::BadTag {
        at: place(reader),
        tag,
    }
}

// The count, which stands at the reader's place, tells of more than is left.
pub(crate) fn short(reader: &Reader<'_>, need: u64) -> CodecFault
    ensures { result ≡ Short reader.now.at need }
{
    CodecFault::Short {
        at: place(reader),
        need,
    }
}

// The byte, which stands at the reader's place, where its test held.
pub(crate) fn tested(reader: &Reader<'_>, byte: u8, holds: bool) -> Result<u8, CodecFault>
    ensures { MatchResult result (λ b. (b ≡ byte) × (holds ≡ true)) (λ fault. (fault ≡ BadTag reader.now.at byte) × (holds ≡ false)) }
{
    if holds {
        Ok(byte)
    } else {
        Err(bad_tag(reader, byte))
    }
}
