//! What is written behind a gate.
ghost use Rattle.std.specs.Prelude.{◌≡◌, ◌+◌, ◌≤◌, length};
ghost use Rattle.qs_disk.specs.Disk.{with_range};
ghost use Rattle.qs_slot.specs.Body.{IsBody};

use crate::found::{digest_of, part_at};
use crate::value::SlotValue;

/// A sequence and a value in 24 bytes, and their digest in 32.
pub fn body_of(sequence: u64, value: SlotValue) -> [u8; 56]
    ensures { IsBody sequence value result }
{
    let mut body = [0; 56];
    put(&mut body, 0, &sequence.to_be_bytes());
    put(&mut body, 8, &value.format.to_be_bytes());
    put(&mut body, 12, &value.inc.to_be_bytes());
    put(&mut body, 20, &value.generation.to_be_bytes());
    let digest = digest_of(part_at(&body, 0, 24));
    put(&mut body, 24, &digest);
    body
}

// Writes the bytes from `at` on.
fn put(out: &mut [u8], at: usize, part: &[u8])
    requires { at + length part.now ≤ length out.old }
    ensures { out.new ≡ with_range out.old at part.now }
{
    out[at..at + part.len()].copy_from_slice(part);
}
