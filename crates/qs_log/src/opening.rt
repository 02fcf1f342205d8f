//! A log read from its disk.
ghost use Rattle.std.specs.Prelude.{◌≡◌, ◌≤◌, ◌<◌, ◌+◌, ◌^◌, ◌⊎◌, ℕ, length, vec_len, min, is_ok, IfOk, OnOk, Ok, Err};
ghost use Rattle.qs_base.specs.Causes.{HasCause, Rose};
ghost use Rattle.qs_log_batch.specs.Batch.{IsCounted, IsBroken};
ghost use Rattle.qs_disk.specs.Disk.{IsImage, IsSize, IsStill, Syncs};
ghost use Rattle.qs_disk.specs.Moments.{Keeps};
ghost use Rattle.qs_slot.specs.Opening.{IsWithin};
ghost use Rattle.qs_slot.specs.Slot.{slots_in};
ghost use Rattle.qs_slot.specs.Turning.{HoldsSlots};
ghost use Rattle.qs_log.specs.Image.{half, live_area, IsLog, IsDamaged, IsBrokenBehind};
ghost use Rattle.qs_log.specs.declared.fault.OpenFault.TheVariants as faults;
ghost use Rattle.qs_slot.specs.declared.fault.SlotFault.TheVariants as slot_faults;

use crate::area::{area_start, half};
use crate::fault::OpenFault;
use qs_base::{List, NoMemory};
use qs_disk::{Disk, DiskFailed};
use qs_log_batch::{BatchFault, FoundBatches, read_batches};
use qs_record::Record;
use qs_slot::{SlotFault, SlotValue, Slots, open_slots};
use std::alloc::Global;

/// How many bytes are cleared at once.
const PIECE: usize = 2048;

/// So many zero bytes.
const ZEROS: [u8; 2048] = [0; 2048];

// What stands on a disk: its slots, its records, and how many bytes the counted batches take.
#[derive(Drop)]
pub(crate) struct Held {
    pub(crate) slots: Slots,
    pub(crate) records: List<Record>,
    pub(crate) used: u64,
}

// Reads the log of a disk, after a sync.
pub(crate) fn read_log<D: Disk>(alloc: Global, disk: &mut D, limit: u64) -> Result<Held, OpenFault>
    requires limit { limit < 2 ^ 62 }
    ensures still { D.told → IfOk result (λ _. IsStill (D.state disk.new)) }
    ensures says { D.told → IfOk result (λ held. slots_in limit (D.state disk.old).content ≡ Ok held.slots.present) }
    ensures holds { D.told → IfOk result (λ held. HoldsSlots held.slots (D.state disk.old).content) }
    ensures log { D.told → IfOk result (λ held. IsLog held.slots.present held.records held.used (D.state disk.old).content) }
    ensures below { IfOk result (λ held. IsWithin limit held.slots.present) }
    ensures within { IfOk result (λ held. held.used ≤ half (D.byte_count disk.old)) }
    ensures allowed { IfOk result (λ _. IsSize (D.byte_count disk.old)) }
    ensures damaged { D.told → (at : ℕ) → result ≡ Err (faults.Damaged at) → IsDamaged limit (D.state disk.old).content at }
    ensures failed { result ≡ Err faults.DiskFailed → Rose (D.fault_count disk.old) (D.fault_count disk.new) }
    ensures later { D.fault_count disk.old ≤ D.fault_count disk.new }
    ensures content { D.told → (D.state disk.new).content ≡ (D.state disk.old).content }
    ensures image { D.told → IsImage (D.state disk.new).now (D.state disk.old).content }
    ensures moments { D.told → Keeps (λ c. IsImage (D.state disk.old).now c ⊎ (c ≡ (D.state disk.old).content)) (D.state disk.old) (D.state disk.new) }
    ensures size { D.byte_count disk.new ≡ D.byte_count disk.old }
    ensures leads { D.leads_to disk.old disk.new }
{
    // A power cut may leave the content.
    let _size = disk.size();
    match settle(disk) {
        Ok(()) => read_held(alloc, disk, limit),
        Err(DiskFailed) => Err(OpenFault::DiskFailed),
    }
}

// Syncs, so that the content is the only image.
fn settle<D: Disk>(disk: &mut D) -> Result<(), DiskFailed>
    ensures state { D.told → Syncs (is_ok result) (D.state disk.old) (D.state disk.new) }
    ensures size { D.byte_count disk.new ≡ D.byte_count disk.old }
    ensures leads { D.leads_to disk.old disk.new }
    ensures cause { HasCause (D.fault_count disk.old) (D.fault_count disk.new) result }
{
    disk.sync()
}

// Reads the log of a disk that is still.
fn read_held<D: Disk>(alloc: Global, disk: &mut D, limit: u64) -> Result<Held, OpenFault>
    requires limit { limit < 2 ^ 62 }
    requires still { D.told → IsStill (D.state disk.old) }
    ensures still { D.told → IfOk result (λ _. IsStill (D.state disk.new)) }
    ensures says { D.told → IfOk result (λ held. slots_in limit (D.state disk.old).content ≡ Ok held.slots.present) }
    ensures holds { D.told → IfOk result (λ held. HoldsSlots held.slots (D.state disk.old).content) }
    ensures log { D.told → IfOk result (λ held. IsLog held.slots.present held.records held.used (D.state disk.old).content) }
    ensures below { IfOk result (λ held. IsWithin limit held.slots.present) }
    ensures within { IfOk result (λ held. held.used ≤ half (D.byte_count disk.old)) }
    ensures allowed { IfOk result (λ _. IsSize (D.byte_count disk.old)) }
    ensures damaged { D.told → (at : ℕ) → result ≡ Err (faults.Damaged at) → IsDamaged limit (D.state disk.old).content at }
    ensures failed { result ≡ Err faults.DiskFailed → Rose (D.fault_count disk.old) (D.fault_count disk.new) }
    ensures later { D.fault_count disk.old ≤ D.fault_count disk.new }
    ensures content { D.told → (D.state disk.new).content ≡ (D.state disk.old).content }
    ensures image { D.told → IsImage (D.state disk.new).now (D.state disk.old).content }
    ensures moments { D.told → Keeps (λ c. c ≡ (D.state disk.old).content) (D.state disk.old) (D.state disk.new) }
    ensures size { D.byte_count disk.new ≡ D.byte_count disk.old }
    ensures leads { D.leads_to disk.old disk.new }
{
    let slots = match open_slots(disk, limit) {
        Ok(slots) => slots,
        Err(fault) => return Err(of_slot(fault)),
    };
    let SlotValue {
        format,
        generation,
        ..
    } = slots.value();
    let area = match read_area(alloc, disk, generation) {
        Ok(area) => area,
        Err(fault) => return Err(fault),
    };
    let start = area_start(disk.size(), generation);
    match counted(alloc, area.as_slice(), format, start) {
        Ok(FoundBatches { records, used }) => Ok(Held {
            slots,
            records,
            used,
        }),
        Err(fault) => Err(fault),
    }
}

// Why slots were not opened, as why a log is not.
fn of_slot(fault: SlotFault) -> OpenFault
    ensures failed { result ≡ faults.DiskFailed → fault ≡ slot_faults.DiskFailed }
    ensures damaged { (at : ℕ) → result ≡ faults.Damaged at → fault ≡ slot_faults.Damaged at }
{
    match fault {
        SlotFault::DiskFailed => OpenFault::DiskFailed,
        SlotFault::Damaged { at } => OpenFault::Damaged { at },
    }
}

// What an area counts that begins at a place of the disk.
fn counted(alloc: Global, area: &[u8], format: u32, start: u64) -> Result<FoundBatches, OpenFault>
    requires known { format ≡ 1 }
    requires small { start + length area.now < 2 ^ 62 }
    ensures found { IfOk result (λ f. IsCounted format area.now f.records f.used) }
    ensures within { IfOk result (λ f. f.used ≤ length area.now) }
    ensures broken { (at : ℕ) → result ≡ Err (faults.Damaged at) → IsBrokenBehind start format area.now at }
    ensures never { result ≡ Err faults.DiskFailed → ⊥ }
{
    match read_batches(alloc, area, format) {
        Ok(found) => Ok(found),
        Err(BatchFault::Broken { at }) => Err(OpenFault::Damaged { at: start + at }),
        Err(BatchFault::NoMemory) => Err(OpenFault::NoMemory),
    }
}

// Reads the area of a generation.
fn read_area<D: Disk>(alloc: Global, disk: &mut D, generation: u32) -> Result<Vec<u8>, OpenFault>
    requires still { D.told → IsStill (D.state disk.old) }
    ensures area { D.told → IfOk result (λ area. area.items ≡ live_area generation (D.state disk.old).content) }
    ensures long { IfOk result (λ area. length area.items ≡ half (D.byte_count disk.old)) }
    ensures never { (at : ℕ) → result ≡ Err (faults.Damaged at) → ⊥ }
    ensures failed { result ≡ Err faults.DiskFailed → Rose (D.fault_count disk.old) (D.fault_count disk.new) }
    ensures later { D.fault_count disk.old ≤ D.fault_count disk.new }
    ensures content { D.told → (D.state disk.new).content ≡ (D.state disk.old).content }
    ensures image { D.told → IsImage (D.state disk.new).now (D.state disk.old).content }
    ensures moments { D.told → Keeps (λ c. c ≡ (D.state disk.old).content) (D.state disk.old) (D.state disk.new) }
    ensures size { D.byte_count disk.new ≡ D.byte_count disk.old }
    ensures leads { D.leads_to disk.old disk.new }
{
    let size = disk.size();
    let mut area = zeros(alloc, half(size))?;
    disk.read(area_start(size, generation), area.as_mut_slice())?;
    Ok(area)
}

// So many zero bytes, a piece at a time: one fill of megabytes is counted as an instruction a byte.
fn zeros(alloc: Global, count: u64) -> Result<Vec<u8>, NoMemory>
    ensures { IfOk result (λ bytes. length bytes.items ≡ count) }
{
    let count = count as usize;
    let mut bytes = Vec::with_capacity(alloc, count)?;
    while bytes.len() < count {
        add_piece(&mut bytes, count)?;
    }
    Ok(bytes)
}

// One more piece, or what is lacking to so many.
fn add_piece(bytes: &mut Vec<u8>, count: usize) -> Result<(), NoMemory>
    requires { vec_len bytes.old < count }
    ensures { OnOk result (vec_len bytes.new ≡ min count (vec_len bytes.old + 2048)) }
{
    let more = PIECE.min(count - bytes.len());
    bytes.extend_from_slice(&ZEROS[..more])?;
    Ok(())
}
