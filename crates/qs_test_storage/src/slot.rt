//! Values written one after the other, damaged slots, limits, and disk calls that fail.
ghost use Rattle.std.specs.Prelude.{◌≡◌, ◌<◌, ◌^◌, OnOk, IfOk};
ghost use Rattle.qs_disk.specs.Disk.{IsStill};

use qs_disk::MemDisk;
use qs_slot::{SlotFault, SlotValue, open_slots};
use std::alloc::Global;
use std::test::Fail;

const LIMIT: u64 = 1 << 40;

// Sequence 1, format 1, incarnation 1, generation 0.
const FIRST: [u8; 57] = [
    1, 0, 0, 0, 0, 0, 0, 0, 1, 0, 0, 0, 1, 0, 0, 0, 0, 0, 0, 0, 1, 0, 0, 0, 0, 159, 60, 24, 91,
    145, 242, 24, 94, 186, 127, 183, 123, 143, 204, 209, 99, 193, 33, 31, 135, 104, 79, 91, 175,
    169, 120, 233, 131, 222, 233, 224, 234,
];

// Sequence 2, format 1, incarnation 2, generation 1.
const SECOND: [u8; 57] = [
    1, 0, 0, 0, 0, 0, 0, 0, 2, 0, 0, 0, 1, 0, 0, 0, 0, 0, 0, 0, 2, 0, 0, 0, 1, 235, 81, 45, 121,
    13, 85, 66, 224, 124, 0, 93, 185, 88, 216, 80, 94, 244, 181, 37, 14, 50, 154, 145, 205, 206,
    17, 233, 141, 164, 16, 137, 188,
];

// Sequence 100, format 1, incarnation 3, generation 2.
const LATER: [u8; 57] = [
    1, 0, 0, 0, 0, 0, 0, 0, 100, 0, 0, 0, 1, 0, 0, 0, 0, 0, 0, 0, 3, 0, 0, 0, 2, 101, 5, 248, 118,
    5, 80, 42, 52, 200, 151, 161, 179, 133, 237, 147, 46, 159, 250, 40, 99, 41, 163, 223, 247, 52,
    52, 50, 122, 211, 218, 143, 15,
];

// Sequence 1, format 1, incarnation 50, generation 0.
const STARTED: [u8; 57] = [
    1, 0, 0, 0, 0, 0, 0, 0, 1, 0, 0, 0, 1, 0, 0, 0, 0, 0, 0, 0, 50, 0, 0, 0, 0, 145, 34, 119, 14,
    83, 242, 86, 7, 117, 128, 46, 203, 196, 60, 11, 159, 76, 13, 35, 13, 224, 250, 146, 178, 182,
    145, 147, 181, 71, 127, 168, 26,
];

// Sequence 1, format 2, incarnation 1, generation 0.
const UNKNOWN: [u8; 57] = [
    1, 0, 0, 0, 0, 0, 0, 0, 1, 0, 0, 0, 2, 0, 0, 0, 0, 0, 0, 0, 1, 0, 0, 0, 0, 248, 122, 151, 179,
    175, 145, 201, 43, 128, 31, 173, 63, 86, 34, 185, 99, 173, 116, 98, 87, 209, 111, 160, 157, 8,
    193, 74, 37, 149, 101, 2, 220,
];

// A slot of a fresh disk.
const ZEROS: [u8; 57] = [0; 57];

// A slot whose gate is closed, before bytes that are no slot's.
const SHUT: [u8; 57] = [7; 57];

const fn value(inc: u64, generation: u32) -> SlotValue
    ensures { result ≡ record { format = 1; inc = inc; generation = generation } }
{
    SlotValue {
        format: 1,
        inc,
        generation,
    }
}

// A disk with these slots.
fn disk_of(
    alloc: Global,
    first: &[u8; 57],
    second: &[u8; 57],
    fail: &[u64],
) -> Result<MemDisk, Fail>
    ensures { IfOk result (λ disk. IsStill disk.disk) }
{
    let mut bytes = vec![in alloc; 0; 65_536]?;
    bytes[..57].copy_from_slice(first);
    bytes[4_096..4_153].copy_from_slice(second);
    Ok(MemDisk::from_bytes(alloc, bytes.as_slice(), 1, fail)?)
}

// Opens the slots, and writes two values: 14 disk calls.
fn turn_twice(disk: &mut MemDisk) -> Result<u64, SlotFault>
    requires { IsStill disk.old.disk }
    ensures { OnOk result (IsStill disk.new.disk) }
{
    let mut slots = open_slots(disk, LIMIT)?;
    slots.write_next(disk, value(1, 0))?;
    slots.write_next(disk, value(2, 1))?;
    Ok(slots.sequence())
}

fn has_both(bytes: &[u8]) -> bool {
    bytes.get(..57) == Some(FIRST.as_slice()) && bytes.get(4_096..4_153) == Some(SECOND.as_slice())
}

// Writes two values to fresh slots, and finds the second one there.
fn turns(disk: &mut MemDisk) -> Result<bool, Fail>
    requires { IsStill disk.old.disk }
{
    let is_second = turn_twice(disk)? == 2;
    let has_both = has_both(disk.bytes());
    let slots = open_slots(disk, LIMIT)?;
    Ok(is_second && has_both && slots.sequence() == 2 && slots.value() == value(2, 1))
}

#[test]
fn values_go_to_the_slots_in_turn(rt: HostRuntime) -> Result<(), Fail> {
    let mut disk = disk_of(rt.alloc(), &ZEROS, &ZEROS, &[])?;
    let is_right = turns(&mut disk);
    drop(disk);
    assert!(rt; is_right?);
    Ok(())
}

// The present sequence and value of these slots, or where they are damaged.
fn present(
    alloc: Global,
    first: &[u8; 57],
    second: &[u8; 57],
    limit: u64,
) -> Result<Result<(u64, SlotValue), SlotFault>, Fail>
    requires { limit < 2 ^ 62 }
{
    let mut disk = disk_of(alloc, first, second, &[])?;
    let opened = open_slots(&mut disk, limit);
    drop(disk);
    match opened {
        Ok(slots) => Ok(Ok((slots.sequence(), slots.value()))),
        Err(fault) => Ok(Err(fault)),
    }
}

/// Two slots, the limit of their numbers, and the present sequence and value, or where they are damaged.
#[test]
fn slots_are_opened(rt: HostRuntime) -> Result<(), Fail> {
    let mut bad = FIRST;
    bad[56] ^= 1;
    let damaged = Err(SlotFault::Damaged { at: 0 });
    let damaged_second = Err(SlotFault::Damaged { at: 4_096 });
    for (first, second, limit, wanted) in [
        (&ZEROS, &ZEROS, LIMIT, Ok((0, value(0, 0)))),
        (&FIRST, &SECOND, LIMIT, Ok((2, value(2, 1)))),
        (&bad, &SECOND, LIMIT, damaged),
        (&SECOND, &bad, LIMIT, damaged_second),
        (&FIRST, &FIRST, LIMIT, damaged_second),
        (&UNKNOWN, &SHUT, LIMIT, damaged),
        (&LATER, &SECOND, LIMIT, Ok((100, value(3, 2)))),
        (&SHUT, &SECOND, LIMIT, Ok((2, value(2, 1)))),
        (&LATER, &SHUT, 101, Ok((100, value(3, 2)))),
        (&LATER, &SHUT, 100, damaged),
        (&STARTED, &SHUT, 51, Ok((1, value(50, 0)))),
        (&STARTED, &SHUT, 50, damaged),
    ] {
        assert!(rt; limit <= LIMIT);
        assert!(rt; present(rt.alloc(), first, second, limit)? == wanted);
    }
    Ok(())
}

// What two turns answer where the disk call of this number fails.
fn turned(alloc: Global, call: u64) -> Result<Result<u64, SlotFault>, Fail> {
    let mut disk = disk_of(alloc, &ZEROS, &ZEROS, &[call])?;
    let turned = turn_twice(&mut disk);
    drop(disk);
    Ok(turned)
}

#[test]
fn each_disk_call_may_fail(rt: HostRuntime) -> Result<(), Fail> {
    for call in 1..15 {
        assert!(rt; turned(rt.alloc(), call)? == Err(SlotFault::DiskFailed));
    }
    assert!(rt; turned(rt.alloc(), 15)? == Ok(2));
    Ok(())
}
