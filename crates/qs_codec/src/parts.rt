//! Bytes, numbers and faults of a text at a place.
ghost use Rattle.std.specs.Prelude.{◌≡◌, ◌+◌, ◌<◌, ◌≤◌, length, take, drop, position, IfOk, OnOk, MatchResult};
ghost use Rattle.std.specs.Int.{w8, w32, w64};
ghost use Rattle.qs_codec.specs.declared.fault.CodecFault.TheVariants.{Short};
ghost use Rattle.qs_codec.specs.Reading.{Finds, reading_at, integer_at, number_at, text_at, is_unprintable};

use crate::fault::CodecFault;

// Every number is below 2^62.
const NUMBER_LIMIT: u64 = 1 << 62;

// The `count` bytes from `at` on.
fn part_at(bytes: &[u8], at: usize, count: usize) -> Result<&[u8], CodecFault>
    requires { at ≤ length bytes.now }
    ensures { MatchResult result (λ part. (count ≤ length (drop at bytes.now)) × (part.now ≡ take count (drop at bytes.now)))
        (λ fault. (fault ≡ Short at count) × (length (drop at bytes.now) < count)) }
{
    let (_, left) = bytes.split_at(at);
    if left.len() < count {
        return Err(CodecFault::Short {
            at: at as u64,
            need: count as u64,
        });
    }
    let (part, _) = left.split_at(count);
    Ok(part)
}

// The byte at `at`.
#[tactic(auto, unfolding(crate::specs::Reading::integer_at))]
pub(crate) fn byte_at(bytes: &[u8], at: usize) -> Result<u8, CodecFault>
    requires { at ≤ length bytes.now }
    ensures exact { Finds (λ n. (n, reading_at bytes.now (at + 1))) result (integer_at w8 (reading_at bytes.now at)) }
    ensures inside { OnOk result (at + 1 ≤ length bytes.now) }
{
    let part = part_at(bytes, at, 1)?;
    Ok(part[0])
}

// The number of four bytes from `at` on.
#[tactic(auto, unfolding(crate::specs::Reading::integer_at))]
pub(crate) fn word_at(bytes: &[u8], at: usize) -> Result<u32, CodecFault>
    requires { at ≤ length bytes.now }
    ensures exact { Finds (λ n. (n, reading_at bytes.now (at + 4))) result (integer_at w32 (reading_at bytes.now at)) }
    ensures inside { OnOk result (at + 4 ≤ length bytes.now) }
{
    let part = part_at(bytes, at, 4)?;
    Ok(u32::from_be_bytes([part[0], part[1], part[2], part[3]]))
}

// The number of eight bytes from `at` on.
#[tactic(auto, unfolding(crate::specs::Reading::integer_at))]
pub(crate) fn long_at(bytes: &[u8], at: usize) -> Result<u64, CodecFault>
    requires { at ≤ length bytes.now }
    ensures exact { Finds (λ n. (n, reading_at bytes.now (at + 8))) result (integer_at w64 (reading_at bytes.now at)) }
    ensures inside { OnOk result (at + 8 ≤ length bytes.now) }
{
    let part = part_at(bytes, at, 8)?;
    Ok(u64::from_be_bytes([
        part[0], part[1], part[2], part[3], part[4], part[5], part[6], part[7],
    ]))
}

// The number below 2^62 of eight bytes from `at` on.
#[tactic(auto, unfolding(crate::specs::Reading::integer_at, crate::specs::Reading::number_at))]
pub(crate) fn number_at(bytes: &[u8], at: usize) -> Result<u64, CodecFault>
    requires { at ≤ length bytes.now }
    ensures exact { Finds (λ n. (n, reading_at bytes.now (at + 8))) result (number_at (reading_at bytes.now at)) }
    ensures inside { OnOk result (at + 8 ≤ length bytes.now) }
{
    let number = long_at(bytes, at)?;
    if number >= NUMBER_LIMIT {
        return Err(CodecFault::BadNumber { at: at as u64 });
    }
    Ok(number)
}

// The text of at most `max` bytes behind its length at `at`.
#[tactic(auto, unfolding(crate::specs::Reading::integer_at, crate::specs::Reading::text_at))]
pub(crate) fn text_at(bytes: &[u8], at: usize, max: u32) -> Result<&[u8], CodecFault>
    requires { at ≤ length bytes.now }
    ensures exact { Finds (λ text. (text.now, reading_at bytes.now (at + (4 + length text.now)))) result (text_at max (reading_at bytes.now at)) }
    ensures inside { IfOk result (λ text. (at + (4 + length text.now) ≤ length bytes.now) × (length text.now ≤ max)) }
{
    let length = word_at(bytes, at)?;
    if length > max {
        return Err(CodecFault::TooLong {
            at: at as u64,
            length,
        });
    }
    let text = part_at(bytes, at + 4, length as usize)?;
    if let Some(place) = first_unprintable(text) {
        return Err(CodecFault::BadText {
            at: (at + 4 + place) as u64,
        });
    }
    Ok(text)
}

// The place of the first byte that is not one of 32 to 126.
fn first_unprintable(text: &[u8]) -> Option<usize>
    ensures { result ≡ position is_unprintable text.now }
{
    text.iter().position(|b| !(32..=126).contains(b))
}
