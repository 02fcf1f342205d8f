//! A batch that is being gathered.
ghost use Rattle.std.specs.Prelude.{◌≡◌, ℕ, ◌+◌, ◌^◌, ◌<◌, List, [], ◌∷◌, ◌++◌, length, sum_by, OnOk, OnErr, ◌==◌};
ghost use Rattle.std.specs.Borrow.{sem};
ghost use Rattle.std.specs.Io.BufRead.{Rests};
ghost use Rattle.qs_record.specs.Grammar.{IsRecord, record_length};
ghost use Rattle.qs_log_batch.specs.Batch.{batch_length};
ghost use Rattle.qs_log_batch.specs.Gathering.{IsSealed};

use crate::buffer::{put_behind, seal_in};
use qs_base::{List, NoMemory};
use qs_record::{Record, encode};
use std::alloc::Global;
use std::marker::Model;

/// A batch that is being gathered, seen as its records in order. Its spelling, gate and digest
/// included, stays below 2^32 bytes.
#[derive(Drop)]
pub struct Batch {
    // 8 bytes for length and count, the records' bytes, and what an earlier sealing left behind them.
    bytes: Vec<u8>,
    // How many bytes the records take.
    size: usize,
    count: u32,
    // The record that is being added.
    part: List<u8>,
}

impl Model for Batch {
    ghost use Rattle.std.specs.Prelude.{List, vec_capacity};
    ghost use Rattle.qs_record.specs.declared.record.Record.{Record};
    ghost use Rattle.qs_log_batch.specs.Gathering.{records_in, body_in, IsGathered};

    ghost Value = { List Record };

    ghost view = { λ b. records_in b.count (body_in b.size b.bytes.items) };

    ghost invariant = { λ b. IsGathered b.count b.size b.bytes.items (vec_capacity b.bytes) };
}

impl Batch {
    ghost use Rattle.qs_log_batch.specs.contracts.batch.Batch.{the_row};

    /// A batch of no records. It takes no memory.
    pub fn new(alloc: Global) -> Batch
        ensures { result ≡ [] }
    {
        Batch {
            bytes: Vec::new(alloc),
            size: 0,
            count: 0,
            part: List::new(alloc),
        }
    }

    /// How many records it has.
    pub fn len(&self) -> usize
        ensures { result ≡ length self.now }
    {
        self.count as usize
    }

    /// Whether it has none.
    pub fn is_empty(&self) -> bool
        ensures { result ≡ (length self.now == 0) }
    {
        self.count == 0
    }

    /// How many bytes its records take.
    pub fn bytes(&self) -> u64
        ensures { result ≡ sum_by record_length self.now }
    {
        self.size as u64
    }

    /// Adds a record at the end, and takes all the memory that sealing needs. After `NoMemory`,
    /// which comes where memory was refused, the batch is as it was.
    pub fn add(&mut self, rec: &Record) -> Result<(), NoMemory>
        requires spelled { IsRecord rec.now }
        requires fits { batch_length (self.old ++ rec.now ∷ []) < 2 ^ 32 }
        ensures ok { OnOk result (self.new ≡ self.old ++ rec.now ∷ []) }
        ensures err { OnErr result (self.new ≡ self.old) }
    {
        self.part.truncate(0);
        encode(rec, &mut self.part)?;
        put_behind(&mut self.bytes, self.size, self.part.as_slice())?;
        self.size += self.part.len();
        self.count += 1;
        Ok(())
    }

    /// What is written behind the batch's gate: length, count, records, digest, and one byte 0, the
    /// next gate. It takes no memory, and the batch keeps its records.
    pub fn seal(&mut self) -> &[u8]
        requires some { 0 < length self.old }
        ensures* same { sem 𝓛 (Rests the_row self.entry (λ after. after ≡ self.old)) }
        ensures bytes { IsSealed self.old result.now }
    {
        seal_in(&mut self.bytes, self.size, self.count);
        self.bytes.as_slice()
    }

    /// Leaves no record. It keeps its memory and takes none.
    pub fn clear(&mut self)
        ensures { self.new ≡ [] }
    {
        self.size = 0;
        self.count = 0;
    }
}
