//! The bytes of a batch that is being gathered.
ghost use Rattle.std.specs.Prelude.{◌≡◌, ℕ, ◌+◌, ◌^◌, ◌<◌, ◌≤◌, List, [], ◌∷◌, ◌++◌, length, take, drop, OnOk, OnErr, vec_capacity};
ghost use Rattle.std.specs.Int.{w32, to_be_bytes};
ghost use Rattle.sha2.specs.Sha256.{sha256};
ghost use Rattle.qs_log_batch.specs.Gathering.{body_in};

use qs_base::NoMemory;
use sha2::{Digest, Sha256};

// Puts bytes behind the first `size` of records, in place of what stood there, with room behind them
// for a digest and a gate.
pub(crate) fn put_behind(bytes: &mut Vec<u8>, size: usize, part: &[u8]) -> Result<(), NoMemory>
    requires small { 41 + size + length part.now < 2 ^ 32 }
    requires within { 0 < size → 8 + size ≤ length bytes.old.items }
    ensures body { OnOk result (body_in (size + length part.now) bytes.new.items ≡ body_in size bytes.old.items ++ part.now) }
    ensures within { OnOk result (8 + size + length part.now ≤ length bytes.new.items) }
    ensures room { OnOk result (41 + size + length part.now ≤ vec_capacity bytes.new) }
    ensures err { OnErr result (body_in size bytes.new.items ≡ body_in size bytes.old.items) }
    ensures left { OnErr result (0 < size → 8 + size ≤ length bytes.new.items) }
    ensures capacity { vec_capacity bytes.old ≤ vec_capacity bytes.new }
{
    bytes.resize(8 + size, 0)?;
    bytes.reserve(part.len() + 33)?;
    append_within(bytes, part);
    Ok(())
}

// Seals so many records in so many bytes.
pub(crate) fn seal_in(bytes: &mut Vec<u8>, size: usize, count: u32)
    requires small { 41 + size < 2 ^ 32 }
    requires within { 8 + size ≤ length bytes.old.items }
    requires room { 41 + size ≤ vec_capacity bytes.old }
    ensures items { bytes.new.items ≡ to_be_bytes w32 size ++ to_be_bytes w32 count ++ body_in size bytes.old.items
        ++ sha256 (to_be_bytes w32 size ++ to_be_bytes w32 count ++ body_in size bytes.old.items) ++ 0 ∷ [] }
    ensures capacity { vec_capacity bytes.old ≤ vec_capacity bytes.new }
{
    bytes.truncate(8 + size);
    put_head(bytes, size as u32, count);
    let digest = Sha256::digest(bytes.as_slice());
    append_within(bytes, &digest);
    append_within(bytes, &[0]);
}

// Writes length and count over the first eight bytes.
fn put_head(bytes: &mut Vec<u8>, size: u32, count: u32)
    requires { 8 ≤ length bytes.old.items }
    ensures items { bytes.new.items ≡ to_be_bytes w32 size ++ to_be_bytes w32 count ++ drop 8 bytes.old.items }
    ensures capacity { vec_capacity bytes.old ≤ vec_capacity bytes.new }
{
    overwrite(bytes, 0, &size.to_be_bytes());
    overwrite(bytes, 4, &count.to_be_bytes());
}

// Writes over the bytes from `at` on.
fn overwrite(bytes: &mut Vec<u8>, at: usize, part: &[u8])
    requires { at + length part.now ≤ length bytes.old.items }
    ensures items { bytes.new.items ≡ take at bytes.old.items ++ (part.now ++ drop (at + length part.now) bytes.old.items) }
    ensures capacity { vec_capacity bytes.old ≤ vec_capacity bytes.new }
{
    bytes[at..at + part.len()].copy_from_slice(part);
}

// Adds bytes at the end, for which room is taken already.
fn append_within(bytes: &mut Vec<u8>, part: &[u8])
    requires { length bytes.old.items + length part.now ≤ vec_capacity bytes.old }
    ensures items { bytes.new.items ≡ bytes.old.items ++ part.now }
    ensures capacity { vec_capacity bytes.old ≤ vec_capacity bytes.new }
{
    bytes.extend_from_slice(part).unwrap();
}
