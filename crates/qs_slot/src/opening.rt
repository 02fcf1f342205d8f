//! Slots found on a disk.
ghost use Rattle.std.specs.Prelude.{◌≡◌, ◌≤◌, ◌<◌, ◌+◌, ◌^◌, ℕ, true, IfOk, Ok, OnErr};
ghost use Rattle.qs_base.specs.Causes.{HasCause, Rose};
ghost use Rattle.qs_disk.specs.Disk.{IsImage, IsStill, StillLeaves};
ghost use Rattle.qs_disk.specs.Moments.{Keeps};
ghost use Rattle.qs_slot.specs.declared.fault.SlotFault.TheVariants as faults;
ghost use Rattle.qs_slot.specs.Opening.{offset_of, seen, opened, slot_of_two, IsWithin, IsFoundWithin};
ghost use Rattle.qs_slot.specs.Slot.{present_in, slot_in, slots_in, together};
ghost use Rattle.qs_slot.specs.Turning.{HoldsSlots, other};

use crate::fault::SlotFault;
use crate::found::{FoundSlot, found_in};
use crate::place::Place;
use crate::slots::Slots;
use crate::value::SlotValue;
use qs_disk::{Disk, DiskFailed};

// The value of a disk on which none was ever written.
const FRESH: SlotValue = SlotValue {
    format: 1,
    inc: 0,
    generation: 0,
};

/// What the slots of a disk say, where numbers have to be below the limit: two disk calls. A disk with
/// no open slot has sequence 0, format 1, incarnation 0 and generation 0. `Damaged` comes where an
/// open slot is damaged or both have one sequence, and `DiskFailed` only where the disk's count of
/// faults rose. The disk's content and images stay the same, and a power cut may leave the content.
pub fn open_slots<D: Disk>(disk: &mut D, limit: u64) -> Result<Slots, SlotFault>
    requires limit { limit < 2 ^ 62 }
    requires still { D.told → IsStill (D.state disk.old) }

    // What the slots say.
    ensures value { D.told → IfOk result (λ slots. slots_in limit (D.state disk.old).content ≡ Ok slots.present) }
    ensures holds { D.told → IfOk result (λ slots. HoldsSlots slots (D.state disk.old).content) }
    ensures damaged { D.told → (at : ℕ) → result ≡ Err (faults.Damaged at) → slots_in limit (D.state disk.old).content ≡ Err at }

    // Also where nothing is told of the disk.
    ensures below { IfOk result (λ slots. IsWithin limit slots.present) }

    // Why it fails.
    ensures failed { result ≡ Err faults.DiskFailed → Rose (D.fault_count disk.old) (D.fault_count disk.new) }
    ensures later { D.fault_count disk.old ≤ D.fault_count disk.new }

    // The disk stays the same.
    ensures content { D.told → (D.state disk.new).content ≡ (D.state disk.old).content }
    ensures image { D.told → IsImage (D.state disk.new).now (D.state disk.old).content }
    ensures moments { D.told → Keeps (λ c. c ≡ (D.state disk.old).content) (D.state disk.old) (D.state disk.new) }
    ensures size { D.byte_count disk.new ≡ D.byte_count disk.old }
    ensures leads { D.leads_to disk.old disk.new }
{
    // Each disk has room for both slots.
    let _size = disk.size();
    let first = read_slot(disk, Place::First, limit)?;
    let second = read_slot(disk, Place::Second, limit)?;
    chosen(first, second)
}

// The slot at a place.
fn read_slot<D: Disk>(disk: &mut D, place: Place, limit: u64) -> Result<FoundSlot, DiskFailed>
    requires in_range { 4153 ≤ D.byte_count disk.old }
    requires still { D.told → IsStill (D.state disk.old) }
    ensures slot { D.told → IfOk result (λ found. seen found ≡ slot_in limit (offset_of place) (D.state disk.old).content) }
    ensures below { IfOk result (λ found. IsFoundWithin limit found) }
    ensures kept { D.told → StillLeaves (D.state disk.old).now (D.state disk.new).now }
    ensures content { D.told → (D.state disk.new).content ≡ (D.state disk.old).content }
    ensures moments { D.told → Keeps (λ c. c ≡ (D.state disk.old).content) (D.state disk.old) (D.state disk.new) }
    ensures size { D.byte_count disk.new ≡ D.byte_count disk.old }
    ensures leads { D.leads_to disk.old disk.new }
    ensures cause { HasCause (D.fault_count disk.old) (D.fault_count disk.new) result }
{
    let mut bytes = [0; 57];
    disk.read(place.offset(), &mut bytes)?;
    Ok(found_in(&bytes, limit))
}

// What two slots say together.
fn chosen(first: FoundSlot, second: FoundSlot) -> Result<Slots, SlotFault>
    ensures value { IfOk result (λ slots. together (seen first) (seen second) ≡ Ok slots.present) }
    ensures next { IfOk result (λ slots. slots.next_open ≡ opened (slot_of_two slots.present.next (seen first) (seen second))) }
    ensures live { IfOk result (λ slots. slots.live_open ≡ opened (slot_of_two (other slots.present.next) (seen first) (seen second))) }
    ensures damaged { (at : ℕ) → result ≡ Err (faults.Damaged at) → together (seen first) (seen second) ≡ Err at }
    ensures below { (limit : ℕ) → IsFoundWithin limit first → IsFoundWithin limit second → IfOk result (λ slots. IsWithin limit slots.present) }
    ensures never { result ≡ Err faults.DiskFailed → ⊥ }
{
    match (first, second) {
        (FoundSlot::Broken, _) => Err(SlotFault::Damaged { at: 0 }),
        (_, FoundSlot::Broken) => Err(SlotFault::Damaged { at: 4096 }),
        (FoundSlot::Shut, FoundSlot::Shut) => Ok(slots_of(0, FRESH, Place::First, false, false)),
        (FoundSlot::Shut, FoundSlot::Whole { sequence, value }) => {
            Ok(slots_of(sequence, value, Place::First, false, true))
        }
        (FoundSlot::Whole { sequence, value }, FoundSlot::Shut) => {
            Ok(slots_of(sequence, value, Place::Second, false, true))
        }
        (
            FoundSlot::Whole { sequence, value },
            FoundSlot::Whole {
                sequence: second_sequence,
                value: second_value,
            },
        ) => {
            if sequence == second_sequence {
                Err(SlotFault::Damaged { at: 4096 })
            } else if second_sequence < sequence {
                Ok(slots_of(sequence, value, Place::Second, true, true))
            } else {
                Ok(slots_of(second_sequence, second_value, Place::First, true, true))
            }
        }
    }
}

// Slots with this value, of which the one at `next` is open or not, and the other one.
fn slots_of(sequence: u64, value: SlotValue, next: Place, next_open: bool, live_open: bool) -> Slots
    ensures { result ≡ record { present = present_in sequence value (offset_of next); next_open = next_open; live_open = live_open } }
{
    Slots {
        sequence,
        value,
        next,
        next_open,
        live_open,
    }
}
