//! Batches whose bytes were worked out by hand, with digests of another program's: gathered, sealed
//! and read, and each way to be damaged.
ghost use Rattle.std.specs.Prelude.{◌≤◌, length, IfOk};
ghost use Rattle.qs_record.specs.Grammar.{IsRecord, record_length};

use crate::samples;
use crate::samples::TID;
use qs_base::List;
use qs_codec::Reader;
use qs_log_batch::{Batch, BatchFault, FoundBatches, read_batches};
use qs_record::{Record, decode};
use std::alloc::Global;
use std::test::Fail;

// Behind the gate: a Prepare at server 0 that covers one request, with the one change Put "f" "hello".
const PREPARE: [u8; 78] = [
    0, 0, 0, 0x26, 0, 0, 0, 1, 1, 0, 0, 0, 0, 0, 0, 0, 0, 1, 0, 0, 0, 1, 0, 0, 0, 0, 1, 0, 0, 0, 1,
    1, 0, 0, 0, 1, 0x66, 0, 0, 0, 5, 0x68, 0x65, 0x6c, 0x6c, 0x6f, 0x82, 0xf1, 0xd6, 0xc0, 0x1d,
    0xd5, 0xdd, 0x63, 0xd5, 0x24, 0x36, 0xbb, 0xfc, 2, 0x7f, 0x92, 0x51, 0x17, 0x46, 0xb4, 0x30,
    0xf1, 0x12, 0x4e, 0xbd, 0x2c, 0x35, 0x66, 0x11, 0x47, 0x7a, 0xd5,
];

// A Commit that tells nobody.
const COMMIT: [u8; 55] = [
    0, 0, 0, 0x0f, 0, 0, 0, 1, 2, 0, 0, 0, 0, 0, 0, 0, 0, 1, 0, 0, 0, 1, 0, 0x1a, 0x99, 0xc8, 0x94,
    0xb5, 0x49, 0x3b, 6, 0x42, 0x3a, 0x8a, 0xda, 0xcc, 0x6c, 0x63, 0xb9, 0xec, 0x62, 0xcc, 0x92,
    0xca, 0x11, 0xfc, 0xd4, 0xba, 0x6d, 0x4c, 0xed, 0xb1, 0x99, 0x68, 0xfb,
];

// The Commit, and behind it the Prepare.
const BOTH: [u8; 93] = [
    0, 0, 0, 0x35, 0, 0, 0, 2, 2, 0, 0, 0, 0, 0, 0, 0, 0, 1, 0, 0, 0, 1, 0, 1, 0, 0, 0, 0, 0, 0, 0,
    0, 1, 0, 0, 0, 1, 0, 0, 0, 0, 1, 0, 0, 0, 1, 1, 0, 0, 0, 1, 0x66, 0, 0, 0, 5, 0x68, 0x65, 0x6c,
    0x6c, 0x6f, 0x28, 0x47, 0x11, 0x18, 0x8f, 0x13, 0x64, 0x33, 0xaa, 0xbc, 0x30, 0xe2, 0x42, 0xbc,
    0x3b, 0x6f, 0x40, 0x6a, 0x72, 0xe1, 0x57, 0x5f, 6, 0x0b, 0x13, 0xbd, 0x14, 0xba, 0xbc, 0x55,
    0x33, 0xe0,
];

// The Commit's bytes under a count of 2, with the digest of that.
const TWICE: [u8; 55] = [
    0, 0, 0, 0x0f, 0, 0, 0, 2, 2, 0, 0, 0, 0, 0, 0, 0, 0, 1, 0, 0, 0, 1, 0, 0x5b, 0x47, 0x77, 0xa2,
    0x9a, 0x6a, 0x5a, 0x61, 0xd6, 0xb7, 0xce, 0x47, 0x64, 0xed, 0x68, 0x63, 0x4e, 0x4d, 0xba, 0x56,
    0x16, 0x42, 0x51, 0xc4, 0x2f, 0x4f, 0xe6, 0xef, 0xe5, 0x5e, 0x84, 0xb0,
];

// No records, with the digest of that.
const NONE: [u8; 40] = [
    0, 0, 0, 0, 0, 0, 0, 0, 0xaf, 0x55, 0x70, 0xf5, 0xa1, 0x81, 0x0b, 0x7a, 0xf7, 0x8c, 0xaf, 0x4b,
    0xc7, 0x0a, 0x66, 0x0f, 0x0d, 0xf5, 0x1e, 0x42, 0xba, 0xf9, 0x1d, 0x4d, 0xe5, 0xb2, 0x32, 0x8d,
    0xe0, 0xe8, 0x3d, 0xfc,
];

// The Commit's bytes and one more, with the digest of these.
const LONGER: [u8; 56] = [
    0, 0, 0, 0x10, 0, 0, 0, 1, 2, 0, 0, 0, 0, 0, 0, 0, 0, 1, 0, 0, 0, 1, 0, 0, 0xc0, 0x84, 0xf8,
    0x17, 0xf3, 0x34, 0xa9, 0xac, 0x45, 0x95, 0xdc, 0x84, 0x37, 2, 7, 0x4d, 0xbf, 0x35, 0xa9, 0xd3,
    0xab, 0x4f, 0x5c, 0xb8, 0x3e, 3, 0xbf, 0x29, 0x0f, 0x13, 0x63, 0x2d,
];

// An area of 28,672 bytes that begins with a batch of the Prepare, and then has another one.
fn area_with(alloc: Global, second: &[u8]) -> Result<Vec<u8>, Fail> {
    let mut area = Vec::new(alloc);
    area.push(1)?;
    area.extend_from_slice(&PREPARE)?;
    area.push(1)?;
    area.extend_from_slice(second)?;
    area.resize(28_672, 0)?;
    Ok(area)
}

fn has_both(alloc: Global, found: &FoundBatches) -> Result<bool, Fail> {
    let mut records = List::new(alloc);
    records.push(samples::prepare(alloc, TID, 1, b"hello")?)?;
    records.push(samples::commit(alloc, TID, &[])?)?;
    Ok(found.used == 135 && found.records.as_slice() == records.as_slice())
}

#[test]
fn batches_are_read(rt: HostRuntime) -> Result<(), Fail> {
    let area = area_with(rt.alloc(), &COMMIT)?;
    let found = read_batches(rt.alloc(), area.as_slice(), 1)?;
    let has_both = has_both(rt.alloc(), &found);
    drop(found);
    drop(area);
    assert!(rt; has_both?);
    Ok(())
}

/// How many bytes the batches of an area take.
fn used_in(alloc: Global, area: &[u8]) -> Result<u64, BatchFault> {
    let found = read_batches(alloc, area, 1)?;
    let used = found.used;
    drop(found);
    Ok(used)
}

/// A second batch, the bytes of the area that are changed, how many bytes it has, and how many are used, or where
/// it is broken. The area's end ends the list too, and an area of no bytes has no batch.
#[test]
fn areas_are_read_to_their_end_or_damage(rt: HostRuntime) -> Result<(), Fail> {
    let alloc = rt.alloc();
    let broken = Err(BatchFault::Broken { at: 79 });
    let commit = COMMIT.as_slice();
    for (second, changed, len, wanted) in [
        (commit, [].as_slice(), 28_672, Ok(135)),
        (commit, [136].as_slice(), 28_672, Ok(135)),
        (
            commit,
            [136, 9].as_slice(),
            28_672,
            Err(BatchFault::Broken { at: 0 }),
        ),
        (commit, [].as_slice(), 135, Ok(135)),
        (commit, [].as_slice(), 0, Ok(0)),
        (TWICE.as_slice(), [].as_slice(), 28_672, broken),
        (NONE.as_slice(), [].as_slice(), 28_672, broken),
        (LONGER.as_slice(), [].as_slice(), 28_672, broken),
        (commit, [134].as_slice(), 28_672, broken),
        (commit, [].as_slice(), 134, broken),
        (commit, [].as_slice(), 80, broken),
    ] {
        let mut area = area_with(alloc, second)?;
        for at in changed {
            if let Some(byte) = area.get_mut(*at) {
                *byte = byte.wrapping_add(7);
            }
        }
        area.truncate(len);
        let used = used_in(alloc, area.as_slice());
        drop(area);
        assert!(rt; used == wanted);
    }
    Ok(())
}

fn record_of(alloc: Global, bytes: &[u8]) -> Result<Record, Fail>
    ensures spelled { IfOk result IsRecord }
    ensures short { IfOk result (λ rec. record_length rec ≤ length bytes.now) }
{
    let mut reader = Reader::new(bytes);
    let rec = decode(alloc, &mut reader)?;
    Ok(rec)
}

/// The batch is emptied or not, a record is added, and the batch then has so many records, of so many bytes, and is
/// sealed so. What is added behind a sealing stands where the digest stood.
#[test]
fn batches_are_sealed(rt: HostRuntime) -> Result<(), Fail> {
    let prepare = samples::PREPARE.as_slice();
    let mut batch = Batch::new(rt.alloc());
    assert!(rt; batch.is_empty());
    for (is_emptied, bytes, size, part) in [
        (false, prepare, (1, 38), PREPARE.as_slice()),
        (true, samples::COMMIT.as_slice(), (1, 15), COMMIT.as_slice()),
        (false, prepare, (2, 53), BOTH.as_slice()),
    ] {
        if is_emptied {
            batch.clear();
        }
        assert!(rt; bytes.len() < 1000 && batch.bytes() < 1000);
        let rec = record_of(rt.alloc(), bytes)?;
        let added = batch.add(&rec);
        drop(rec);
        added?;
        assert!(rt; (batch.len(), batch.bytes()) == size && !batch.is_empty());
        assert!(rt; is_sealed(batch.seal(), part));
    }
    Ok(())
}

// Whether a sealed batch is this, and a zero behind it.
fn is_sealed(sealed: &[u8], part: &[u8]) -> bool {
    sealed.starts_with(part)
        && sealed.last() == Some(&0)
        && sealed.len() == part.len().wrapping_add(1)
}
