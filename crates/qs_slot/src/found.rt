//! A slot as it stands on a disk.
ghost use Rattle.std.specs.Prelude.{◌≡◌, ◌+◌, ◌≤◌, ◌<◌, length, true};
ghost use Rattle.sha2.specs.Sha256.{sha256};
ghost use Rattle.qs_base.specs.Order.{same_bytes};
ghost use Rattle.qs_codec.specs.Grammar.{big_endian};
ghost use Rattle.qs_disk.specs.Disk.{range};
ghost use Rattle.qs_slot.specs.Opening.{seen, IsFoundWithin};
ghost use Rattle.qs_slot.specs.Slot.{slot_in, is_format, is_sound, value_in};

use crate::value::SlotValue;
use sha2::{Digest, Sha256};

/// A slot as it was found.
#[derive(Clone, Copy)]
pub enum FoundSlot {
    /// Its gate is closed.
    Shut,
    /// It is open, and its digest is that of its sequence and value.
    Whole { sequence: u64, value: SlotValue },
    /// It is open, and damaged.
    Broken,
}

/// The slot of these bytes, where numbers have to be below the limit.
pub fn found_in(bytes: &[u8; 57], limit: u64) -> FoundSlot
    ensures slot { seen result ≡ slot_in limit 0 bytes.now }
    ensures within { IsFoundWithin limit result }
{
    if bytes[0] != 1 {
        return FoundSlot::Shut;
    }
    if !is_sound(bytes, limit) {
        return FoundSlot::Broken;
    }
    FoundSlot::Whole {
        sequence: long_at(bytes, 1),
        value: value_in(bytes),
    }
}

// Its numbers are below the limit, its format is known, and its digest is that of its fields.
fn is_sound(bytes: &[u8; 57], limit: u64) -> bool
    ensures { result ≡ is_sound limit 0 bytes.now }
{
    let value = value_in(bytes);
    long_at(bytes, 1) < limit && value.inc < limit && value.format == 1 && has_digest(bytes)
}

// The digest is that of the fields.
fn has_digest(bytes: &[u8; 57]) -> bool
    ensures { result ≡ same_bytes (range 25 32 bytes.now) (sha256 (range 1 24 bytes.now)) }
{
    let digest = digest_of(part_at(bytes, 1, 24));
    part_at(bytes, 25, 32) == digest.as_slice()
}

// The value behind the sequence.
fn value_in(bytes: &[u8; 57]) -> SlotValue
    ensures { result ≡ value_in 0 bytes.now }
{
    SlotValue {
        format: word_at(bytes, 9),
        inc: long_at(bytes, 13),
        generation: word_at(bytes, 21),
    }
}

/// The digest of these bytes.
pub fn digest_of(bytes: &[u8]) -> [u8; 32]
    ensures { result ≡ sha256 bytes.now }
{
    Sha256::digest(bytes)
}

/// The `count` bytes from `at` on.
pub fn part_at(bytes: &[u8], at: usize, count: usize) -> &[u8]
    requires { at + count ≤ length bytes.now }
    ensures exact { result.now ≡ range at count bytes.now }
    ensures long { length result.now ≡ count }
{
    let (_, left) = bytes.split_at(at);
    let (part, _) = left.split_at(count);
    part
}

// The number of four bytes from `at` on.
fn word_at(bytes: &[u8], at: usize) -> u32
    requires { at + 4 ≤ length bytes.now }
    ensures { result ≡ big_endian (range at 4 bytes.now) }
{
    let part = part_at(bytes, at, 4);
    u32::from_be_bytes([part[0], part[1], part[2], part[3]])
}

// The number of eight bytes from `at` on.
fn long_at(bytes: &[u8], at: usize) -> u64
    requires { at + 8 ≤ length bytes.now }
    ensures { result ≡ big_endian (range at 8 bytes.now) }
{
    let part = part_at(bytes, at, 8);
    u64::from_be_bytes([
        part[0], part[1], part[2], part[3], part[4], part[5], part[6], part[7],
    ])
}
