//! The batches of an area.
ghost use Rattle.std.specs.Prelude.{◌≡◌, ◌↔◌, ℕ, Err, length, slice_index, IfOk, IsTrue, MatchOption};
ghost use Rattle.qs_log_batch.specs.Batch.{IsCounted, IsBroken};
ghost use Rattle.qs_log_batch.specs.Reading.{HasNone, Decides, AddsBatch};
ghost use Rattle.qs_log_batch.specs.declared.fault.BatchFault.TheVariants.{Broken};

use crate::fault::BatchFault;
use crate::parts::parts_at;
use qs_base::{List, NoMemory};
use qs_codec::Reader;
use qs_record::{Record, RecordFault, decode};
use std::alloc::Global;

// An open gate.
const OPEN: u8 = 1;

/// The records of an area's batches, in order, and how many bytes the batches take.
#[derive(Drop)]
pub struct FoundBatches {
    pub records: List<Record>,
    pub used: u64,
}

/// The records of the batches at the front of an area in format 1, the one that is built. Each byte
/// of the batches is read a constant number of times. `Broken` comes where a gate is open over what
/// is no batch, at that gate's place, and `NoMemory` where memory was refused.
pub fn read_batches(alloc: Global, area: &[u8], format: u32) -> Result<FoundBatches, BatchFault>
    requires { format ≡ 1 }
    ensures found { IfOk result (λ f. IsCounted format area.now f.records f.used) }
    ensures broken { (at : ℕ) → result ≡ Err (Broken at) → IsBroken format area.now at }
{
    prove!(format == 1);
    let mut records = List::new(alloc);
    let mut rest = area;
    while is_open(rest) {
        let Some(used) = add_batch(alloc, rest, &mut records)? else {
            return Err(BatchFault::Broken {
                at: (area.len() - rest.len()) as u64,
            });
        };
        let (_, behind) = rest.split_at(used);
        rest = behind;
    }
    Ok(FoundBatches {
        records,
        used: (area.len() - rest.len()) as u64,
    })
}

// Whether an open gate stands at the front.
fn is_open(area: &[u8]) -> bool
    ensures { IsTrue result ↔ (slice_index area.now 0 ≡ 1) }
{
    area.first() == Some(&OPEN)
}

// Adds the records of the batch at the front, and tells how many bytes it takes; `None` where none
// stands there.
fn add_batch(
    alloc: Global,
    area: &[u8],
    records: &mut List<Record>,
) -> Result<Option<usize>, NoMemory>
    requires { slice_index area.now 0 ≡ 1 }
    ensures { IfOk result (λ found. MatchOption found (HasNone 1 area.now) (λ used. AddsBatch area.now used records.old records.new)) }
{
    let Some(parts) = parts_at(area) else {
        return Ok(None);
    };
    if parts.is_empty() || !parts.is_intact() {
        return Ok(None);
    }
    if !add_records(alloc, parts.body, parts.count, records)? {
        return Ok(None);
    }
    Ok(Some(41 + parts.body.len()))
}

// Adds the records that the bytes are, and tells whether they are so many.
fn add_records(
    alloc: Global,
    body: &[u8],
    count: u32,
    records: &mut List<Record>,
) -> Result<bool, NoMemory>
    ensures { IfOk result (λ whole. Decides whole count body.now records.old records.new) }
{
    let mut reader = Reader::new(body);
    for _turn in 0..count {
        match decode(alloc, &mut reader) {
            Ok(rec) => records.push(rec)?,
            Err(RecordFault::Codec { .. }) => return Ok(false),
            Err(RecordFault::NoMemory) => return Err(NoMemory),
        }
    }
    Ok(reader.left() == 0)
}
