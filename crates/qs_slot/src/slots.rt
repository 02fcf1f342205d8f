//! The slots of a disk, as their holder sees them.
ghost use Rattle.std.specs.Prelude.{◌≡◌, ◌≤◌, ◌<◌, ◌+◌, ◌-◌, ◌^◌, true, length, drop, OnOk, OnErr};
ghost use Rattle.qs_base.specs.Causes.{HasCause};
ghost use Rattle.qs_disk.specs.Disk.{IsStill, MayLeave};
ghost use Rattle.qs_disk.specs.Moments.{Keeps};
ghost use Rattle.qs_slot.specs.Body.{closing_bytes, opened_gate, IsStaging, IsWriting};
ghost use Rattle.qs_slot.specs.Slot.{is_format};
ghost use Rattle.qs_slot.specs.Turning.{HoldsSlots, IsOldOrNew, SaysAsBefore, turned};

use crate::body::body_of;
use crate::place::Place;
use crate::value::SlotValue;
use qs_disk::{Disk, DiskFailed, write_through};
use std::marker::Model;

/// What the slots of a disk say, and where the next value goes.
#[derive(Drop)]
pub struct Slots {
    pub(crate) sequence: u64,
    pub(crate) value: SlotValue,
    pub(crate) next: Place,
    pub(crate) next_open: bool,
    pub(crate) live_open: bool,
}

impl Model for Slots {
    ghost use Rattle.qs_slot.specs.Opening.{offset_of};
    ghost use Rattle.qs_slot.specs.Slot.{present_in};
    ghost use Rattle.qs_slot.specs.Turning.{SlotsValue};

    ghost Value = { SlotsValue };

    ghost view = { λ s. record { present = present_in s.sequence s.value (offset_of s.next); next_open = s.next_open; live_open = s.live_open } };
}

impl Slots {
    /// The present value.
    pub fn value(&self) -> SlotValue
        ensures { result ≡ self.now.present.value }
    {
        self.value
    }

    /// How many values were written, or 0 on a fresh disk.
    pub fn sequence(&self) -> u64
        ensures { result ≡ self.now.present.sequence }
    {
        self.sequence
    }

    /// Writes a new value beside the present one, with the next sequence: six disk calls. At each
    /// moment an image has the present value or the new one. `DiskFailed` comes only where the disk's
    /// count of faults rose; a power cut may still leave the present value then, and the slots are not to
    /// be used.
    pub fn write_next<D: Disk>(&mut self, disk: &mut D, value: SlotValue) -> Result<(), DiskFailed>
        requires sequence { self.old.present.sequence < 2 ^ 62 - 1 }
        requires inc { value.inc < 2 ^ 62 }
        requires format { is_format value.format ≡ true }
        requires still { D.told → IsStill (D.state disk.old) }
        requires holds { D.told → HoldsSlots self.old (D.state disk.old).content }

        // At each moment every image has the old value or the new one.
        ensures moments { D.told → Keeps (IsOldOrNew self.old.present value (D.state disk.old).content) (D.state disk.old) (D.state disk.new) }

        // The new value is on the disk.
        ensures turned { OnOk result (self.new.present ≡ turned self.old.present value) }
        ensures still { D.told → OnOk result (IsStill (D.state disk.new)) }
        ensures holds { D.told → OnOk result (HoldsSlots self.new (D.state disk.new).content) }
        ensures behind { D.told → OnOk result (drop 8192 (D.state disk.new).content ≡ drop 8192 (D.state disk.old).content) }

        // Where it fails a power cut may still leave the old value.
        ensures kept { D.told → OnErr result (MayLeave (SaysAsBefore (D.state disk.old).content) (D.state disk.new).now) }

        // What stays, and why it fails.
        ensures same { OnErr result (self.new ≡ self.old) }
        ensures size { D.byte_count disk.new ≡ D.byte_count disk.old }
        ensures leads { D.leads_to disk.old disk.new }
        ensures cause { HasCause (D.fault_count disk.old) (D.fault_count disk.new) result }
    {
        // Each disk has room for both slots.
        let _size = disk.size();
        let place = self.next.offset();
        let body = body_of(self.sequence + 1, value);
        write_slot(disk, place, closing(self.next_open), &body)?;
        *self = Slots {
            sequence: self.sequence + 1,
            value,
            next: self.next.other(),
            next_open: self.live_open,
            live_open: true,
        };
        Ok(())
    }
}

// The bytes that close a gate. A byte that is written again may be 1 in an image, so a closed gate
// stays as it is.
fn closing(is_open: bool) -> &'static [u8]
    ensures exact { result.now ≡ closing_bytes is_open }
    ensures short { length result.now ≤ 1 }
{
    if is_open { &[0] } else { &[] }
}

// Closes a gate, writes the bytes behind it, and opens it: each is on the disk before the next one
// is written.
fn write_slot<D: Disk>(
    disk: &mut D,
    place: u64,
    closing: &[u8],
    body: &[u8; 56],
) -> Result<(), DiskFailed>
    requires in_range { place + 57 ≤ D.byte_count disk.old }
    requires place { place ≤ 4096 }
    requires short { length closing.now ≤ 1 }
    requires still { D.told → IsStill (D.state disk.old) }
    ensures moments { D.told → Keeps (IsWriting place closing.now body.now (D.state disk.old).content) (D.state disk.old) (D.state disk.new) }
    ensures still { D.told → OnOk result (IsStill (D.state disk.new)) }
    ensures written { D.told → OnOk result ((D.state disk.new).content ≡ opened_gate place closing.now body.now (D.state disk.old).content) }
    ensures kept { D.told → OnErr result (MayLeave (IsStaging place closing.now body.now (D.state disk.old).content) (D.state disk.new).now) }
    ensures size { D.byte_count disk.new ≡ D.byte_count disk.old }
    ensures leads { D.leads_to disk.old disk.new }
    ensures cause { HasCause (D.fault_count disk.old) (D.fault_count disk.new) result }
{
    write_through(disk, place, closing)?;
    write_through(disk, place + 1, body)?;
    write_through(disk, place, &[1])
}
