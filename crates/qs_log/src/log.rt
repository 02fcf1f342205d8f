//! The log of a disk.
ghost use Rattle.std.specs.Prelude.{◌≡◌, ◌≤◌, ◌<◌, ◌+◌, ◌-◌, ◌^◌, ◌⊎◌, ◌↔◌, ℕ, List, [], ◌∷◌, ◌++◌, length, take, drop, IfOk, IfErr, OnOk, OnErr, IsErrOf, Ok, Err};
ghost use Rattle.std.specs.List.{filter};
ghost use Rattle.qs_base.specs.Causes.{HasCause, Rose};
ghost use Rattle.qs_disk.specs.Disk.{IsImage, IsStill, MayLeave, Torn, with_range};
ghost use Rattle.qs_disk.specs.Fuse.{armed};
ghost use Rattle.qs_disk.specs.Moments.{Keeps};
ghost use Rattle.qs_record.specs.Grammar.{IsRecord};
ghost use Rattle.qs_slot.specs.Opening.{IsWithin};
ghost use Rattle.qs_slot.specs.Slot.{slots_in, SayTheSame, StandBelow};
ghost use Rattle.qs_slot.specs.Turning.{SaysAsBefore};
ghost use Rattle.qs_log.specs.Image.{IsDamaged};
ghost use Rattle.qs_log.specs.Log.{LogValue, Stands, IsOldOrWhole, IsOldOrRaised, records_of, room_of, need_of, top_of, raised_of, waiting_length, is_of, disk_of, IsFull, IsForced, HasSameRecords, IsReady, IsSameButFuse, forced_of};
ghost use Rattle.qs_log_batch.specs.Batch.{batch_length};
ghost use Rattle.qs_log.specs.declared.fault.OpenFault.TheVariants as open_faults;
ghost use Rattle.qs_log.specs.declared.fault.AppendFault.TheVariants as append_faults;

use crate::area::{FRAME, area_start, half, waiting_length};
use crate::fault::{AppendFault, LogOpen};
use crate::opening::{Held, read_log};
use qs_base::{Copied, List, NoMemory, ServerNo};
use qs_disk::{Disk, DiskFailed, Fused, write_through};
use qs_log_batch::Batch;
use qs_record::{Record, length};
use qs_slot::{SlotValue, Slots};
use std::alloc::Global;
use std::marker::Model;

/// The place of a record in its log: how many records stand before it.
pub type Lsn = u64;

/// The server number under which the manager's records are found.
const MANAGER: u8 = 7;

/// The log of a disk: the records that stand on it, and those that wait to be forced.
#[derive(Drop)]
pub struct Log<D: Disk> {
    disk: D,
    slots: Slots,
    // All records, of which the first `forced` stand on the disk.
    records: List<Record>,
    forced: usize,
    // The others, as a batch.
    batch: Batch,
    // How many bytes the batches on the disk take.
    used: u64,
    alloc: Global,
}

impl<D: Disk> Model for Log<D> {
    ghost use Rattle.std.specs.Prelude.{take, drop};
    ghost use Rattle.qs_log.specs.Log.{LogValue, IsKept};

    ghost Value = { LogValue D };

    ghost view = { λ l. record { disk = l.disk; slots = l.slots; forced = take l.forced l.records; waiting = drop l.forced l.records; used = l.used } };

    ghost invariant = { λ l. IsKept (D.byte_count l.disk) l.slots l.records l.forced l.batch l.used };
}

impl<D: Disk> Log<D> {
    /// The log of a disk, after a sync: its slots, whose numbers have to be below the limit, and the
    /// records of its live area. None waits. `Damaged` tells the place of a damaged slot, or of an open
    /// gate before no batch; `DiskFailed` comes only where the disk's count of faults rose. The disk
    /// comes back in each case, and its content stays the same, which a power cut may leave.
    pub fn open(alloc: Global, disk: D, limit: u64) -> Result<Log<D>, LogOpen<D>>
        requires { limit < 2 ^ 62 }

        // The log of the content, and none waits.
        ensures stands { D.told → IfOk result (λ log. Stands log (D.state log.disk)) }
        ensures says { D.told → IfOk result (λ log. slots_in limit (D.state disk).content ≡ Ok log.slots.present) }
        ensures waiting { IfOk result (λ log. log.waiting ≡ []) }
        ensures below { IfOk result (λ log. IsWithin limit log.slots.present) }

        // Why it is not opened.
        ensures damaged { D.told → IfErr result (λ fault. (at : ℕ) → fault.why ≡ open_faults.Damaged at → IsDamaged limit (D.state disk).content at) }
        ensures failed { IfErr result (λ fault. fault.why ≡ open_faults.DiskFailed → Rose (D.fault_count disk) (D.fault_count fault.disk)) }

        // What stays.
        ensures content { D.told → (D.state (disk_of result)).content ≡ (D.state disk).content }
        ensures image { D.told → IsImage (D.state (disk_of result)).now (D.state disk).content }
        ensures moments { D.told → Keeps (λ c. IsImage (D.state disk).now c ⊎ (c ≡ (D.state disk).content)) (D.state disk) (D.state (disk_of result)) }
        ensures size { D.byte_count (disk_of result) ≡ D.byte_count disk }
        ensures leads { D.leads_to disk (disk_of result) }
        ensures later { D.fault_count disk ≤ D.fault_count (disk_of result) }
    {
        let mut disk = disk;
        match read_log(alloc, &mut disk, limit) {
            Ok(
                Held {
                    slots,
                    records,
                    used,
                },
            ) => {
                let forced = records.len();
                Ok(Log {
                    disk,
                    slots,
                    records,
                    forced,
                    batch: Batch::new(alloc),
                    used,
                    alloc,
                })
            },
            Err(why) => Err(LogOpen { disk, why }),
        }
    }

    /// Adds a record behind the others, where it waits until `force`. It answers how many records
    /// stand before it. `LogFull` comes exactly where the record needs more bytes than there is room
    /// for, and names both; after a refusal the log is as it was. It takes the memory that `force`
    /// needs, and makes no disk call.
    pub fn append(&mut self, rec: &Record) -> Result<Lsn, AppendFault>
        requires { IsRecord rec.now }

        // Why it is not taken.
        ensures full { (need room : ℕ) → IsErrOf result (append_faults.LogFull need room) ↔ IsFull (D.byte_count self.old.disk) self.old rec.now need room }
        ensures same { OnErr result (self.new ≡ self.old) }

        // What an `Ok` gives.
        ensures lsn { IfOk result (λ lsn. lsn ≡ length (records_of self.old)) }
        ensures added { OnOk result (self.new ≡ record self.old { waiting = self.old.waiting ++ rec.now ∷ [] }) }
        ensures stands { D.told → Stands self.old (D.state self.old.disk) → Stands self.new (D.state self.new.disk) }
        ensures room { OnOk result (room_of (D.byte_count self.old.disk) self.new + need_of self.old.waiting rec.now ≡ room_of (D.byte_count self.old.disk) self.old) }
    {
        let need = self.need(rec);
        let room = self.room();
        if room < need {
            return Err(AppendFault::LogFull { need, room });
        }
        add_to_both(&mut self.records, &mut self.batch, rec)
    }

    /// How many bytes the record would take, with the frame of a batch where none waits.
    fn need(&self, rec: &Record) -> u64
        requires { IsRecord rec.now }
        ensures { result ≡ need_of self.now.waiting rec.now }
    {
        if self.batch.is_empty() {
            length(rec) + FRAME
        } else {
            length(rec)
        }
    }

    /// Forces all waiting records as one batch: with none it makes no disk call, else it writes the
    /// batch behind the closed gate, syncs, opens the gate and syncs. At each moment an image has the
    /// forced records of before or all. It takes no memory. `DiskFailed` comes only where the disk's
    /// count of faults rose; the log need not stand then, and only `into_disk` is of use.
    pub fn force(&mut self) -> Result<(), DiskFailed>
        requires { D.told → Stands self.old (D.state self.old.disk) }

        // At each moment an image has the records of before or all.
        ensures moments { D.told → Keeps (IsOldOrWhole self.old) (D.state self.old.disk) (D.state self.new.disk) }

        // Where none waits nothing is done.
        ensures idle { self.old.waiting ≡ [] → (result ≡ Ok tt) × (self.new ≡ self.old) }

        // What an `Ok` gives.
        ensures forced { OnOk result (IsForced self.old self.new) }
        ensures stands { D.told → OnOk result (Stands self.new (D.state self.new.disk)) }

        // What stays, and why it fails: at each moment the slots of an image say the same.
        ensures slots { self.new.slots ≡ self.old.slots }
        ensures header { D.told → Keeps (SayTheSame (D.state self.old.disk).content) (D.state self.old.disk) (D.state self.new.disk) }
        ensures records { records_of self.new ≡ records_of self.old }
        ensures size { D.byte_count self.new.disk ≡ D.byte_count self.old.disk }
        ensures leads { D.leads_to self.old.disk self.new.disk }
        ensures cause { HasCause (D.fault_count self.old.disk) (D.fault_count self.new.disk) result }
    {
        if self.batch.is_empty() {
            return Ok(());
        }
        let size = self.disk.size();
        let gate = area_start(size, self.slots.value().generation) + self.used;
        let taken = waiting_length(&self.batch);
        write_batch(&mut self.disk, gate, &mut self.batch)?;
        self.used += taken;
        self.forced = self.records.len();
        self.batch.clear();
        Ok(())
    }

    /// Writes the incarnation one higher into the other slot, and answers it: six disk calls. At each
    /// moment an image has the slots of before or the new ones, and the forced records. `DiskFailed`
    /// comes only where the disk's count of faults rose; a power cut may still leave the incarnation of
    /// before then, the log need not stand, and only `into_disk` is of use.
    pub fn raise(&mut self) -> Result<u64, DiskFailed>
        requires below { top_of self.old.slots.present < 2 ^ 62 - 1 }
        requires stands { D.told → Stands self.old (D.state self.old.disk) }

        // At each moment an image has the incarnation of before or the new one.
        ensures moments { D.told → Keeps (IsOldOrRaised self.old) (D.state self.old.disk) (D.state self.new.disk) }

        // Where it fails a power cut may still leave the incarnation of before.
        ensures kept { D.told → OnErr result (MayLeave (SaysAsBefore (D.state self.old.disk).content) (D.state self.new.disk).now) }
        // Slots that stand below a limit with room for the new one do so at each moment.
        ensures below { D.told → (limit : ℕ) → slots_in limit (D.state self.old.disk).content ≡ Ok self.old.slots.present
            → top_of self.old.slots.present + 1 < limit → Keeps (StandBelow limit) (D.state self.old.disk) (D.state self.new.disk) }

        // What an `Ok` gives.
        ensures answer { IfOk result (λ inc. inc ≡ self.old.slots.present.value.inc + 1) }
        ensures raised { OnOk result (self.new.slots.present ≡ raised_of self.old.slots.present) }
        ensures stands { D.told → OnOk result (Stands self.new (D.state self.new.disk)) }

        // What stays, and why it fails.
        ensures records { HasSameRecords self.old self.new }
        ensures size { D.byte_count self.new.disk ≡ D.byte_count self.old.disk }
        ensures leads { D.leads_to self.old.disk self.new.disk }
        ensures cause { HasCause (D.fault_count self.old.disk) (D.fault_count self.new.disk) result }
    {
        let value = self.slots.value();
        let inc = value.inc + 1;
        self.slots
            .write_next(&mut self.disk, SlotValue { inc, ..value })?;
        Ok(inc)
    }

    /// A copy of the records of a server from a place on, in order: its Prepares, and for server 7, the
    /// manager, all other records. Waiting records are among them.
    pub fn scan(&self, server: ServerNo, from: Lsn) -> Result<List<Record>, NoMemory>
        ensures { IfOk result (λ found. found ≡ filter (is_of server.0) (drop from (records_of self.now))) }
    {
        let at = self.records.len().min(from as usize);
        let (_, rest) = self.records.as_slice().split_at(at);
        scan_records(self.alloc, rest, server)
    }

    /// All records in order, the waiting ones last.
    pub fn records(&self) -> &List<Record>
        ensures { result.now ≡ records_of self.now }
    {
        &self.records
    }

    /// How many bytes more may wait.
    pub fn room(&self) -> u64
        ensures { result ≡ room_of (D.byte_count self.now.disk) self.now }
    {
        let size = self.disk.size();
        half(size)
            .saturating_sub(self.used)
            .saturating_sub(waiting_length(&self.batch))
            .saturating_sub(1)
    }

    /// How often the log changed its area.
    pub fn generation(&self) -> u32
        ensures { result ≡ self.now.slots.present.value.generation }
    {
        self.slots.value().generation
    }

    /// The format of the disk.
    pub fn format(&self) -> u32
        ensures { result ≡ self.now.slots.present.value.format }
    {
        self.slots.value().format
    }

    /// How often the node was started.
    pub fn inc(&self) -> u64
        ensures { result ≡ self.now.slots.present.value.inc }
    {
        self.slots.value().inc
    }

    /// The greater of the incarnation and the slots' sequence, which `raise` makes one higher each.
    pub fn top(&self) -> u64
        ensures { result ≡ top_of self.now.slots.present }
    {
        self.slots.value().inc.max(self.slots.sequence())
    }

    /// The disk.
    pub fn disk(&self) -> &D
        ensures { result.now ≡ self.now.disk }
    {
        &self.disk
    }

    /// The disk, without the log.
    pub fn into_disk(self) -> D
        ensures { result ≡ self.disk }
    {
        let Log { disk, .. } = self;
        disk
    }
}

impl<D: Disk> Log<Fused<D>> {
    /// Plans the numbers of the disk calls to trip at, from 1 for the next one. What has tripped before is forgotten.
    pub fn arm(&mut self, plan: List<u64>)
        ensures fuse { self.new.disk.fuse ≡ armed plan }
        ensures same { IsSameButFuse self.old self.new }
        ensures stands { D.told → Stands self.old (D.state self.old.disk.disk) → Stands self.new (D.state self.new.disk.disk) }
    {
        self.disk.arm(plan);
    }
}

// Writes a batch behind a closed gate, syncs, opens the gate and syncs.
fn write_batch<D: Disk>(disk: &mut D, gate: u64, batch: &mut Batch) -> Result<(), DiskFailed>
    requires some { 0 < length batch.old }
    requires small { gate < 2 ^ 62 }
    requires in_range { gate + waiting_length batch.old + 1 ≤ D.byte_count disk.old }
    requires still { D.told → IsStill (D.state disk.old) }

    // What it is for each log with these waiting records and this gate.
    ensures moments { D.told → (log : LogValue D) → IsReady log batch.old (D.byte_count disk.old) gate (D.state disk.old)
        → Keeps (IsOldOrWhole log) (D.state disk.old) (D.state disk.new) }
    ensures stands { D.told → (log : LogValue D) → IsReady log batch.old (D.byte_count disk.old) gate (D.state disk.old)
        → OnOk result (Stands (forced_of log) (D.state disk.new)) }

    // What stays, and why it fails.
    ensures header { D.told → 8192 ≤ gate → Keeps (SayTheSame (D.state disk.old).content) (D.state disk.old) (D.state disk.new) }
    ensures batch { batch.new ≡ batch.old }
    ensures size { D.byte_count disk.new ≡ D.byte_count disk.old }
    ensures leads { D.leads_to disk.old disk.new }
    ensures cause { HasCause (D.fault_count disk.old) (D.fault_count disk.new) result }
{
    write_behind(disk, gate + 1, batch.seal())?;
    open_gate(disk, gate)
}

// Writes what stands behind a gate, and syncs: all of it is on the disk before the gate is opened.
fn write_behind<D: Disk>(disk: &mut D, at: u64, bytes: &[u8]) -> Result<(), DiskFailed>
    requires in_range { at + length bytes.now ≤ D.byte_count disk.old }
    requires still { D.told → IsStill (D.state disk.old) }
    ensures moments { D.told → Keeps (Torn at (length bytes.now) (D.state disk.old).content) (D.state disk.old) (D.state disk.new) }
    ensures still { D.told → OnOk result (IsStill (D.state disk.new)) }
    ensures written { D.told → OnOk result ((D.state disk.new).content ≡ with_range (D.state disk.old).content at bytes.now) }
    ensures size { D.byte_count disk.new ≡ D.byte_count disk.old }
    ensures leads { D.leads_to disk.old disk.new }
    ensures cause { HasCause (D.fault_count disk.old) (D.fault_count disk.new) result }
{
    write_through(disk, at, bytes)
}

// Opens a gate, and syncs: from then on every image has what stands behind it.
fn open_gate<D: Disk>(disk: &mut D, gate: u64) -> Result<(), DiskFailed>
    requires in_range { gate + 1 ≤ D.byte_count disk.old }
    requires still { D.told → IsStill (D.state disk.old) }
    ensures moments { D.told → Keeps (Torn gate 1 (D.state disk.old).content) (D.state disk.old) (D.state disk.new) }
    ensures still { D.told → OnOk result (IsStill (D.state disk.new)) }
    ensures written { D.told → OnOk result ((D.state disk.new).content ≡ with_range (D.state disk.old).content gate (1 ∷ [])) }
    ensures size { D.byte_count disk.new ≡ D.byte_count disk.old }
    ensures leads { D.leads_to disk.old disk.new }
    ensures cause { HasCause (D.fault_count disk.old) (D.fault_count disk.new) result }
{
    write_through(disk, gate, &[1])
}

// Adds a record to both, or to none where memory is refused, and answers how many stand before it.
fn add_to_both(
    records: &mut List<Record>,
    batch: &mut Batch,
    rec: &Record,
) -> Result<Lsn, AppendFault>
    requires spelled { IsRecord rec.now }
    requires fits { batch_length (batch.old ++ rec.now ∷ []) < 2 ^ 32 }
    ensures lsn { IfOk result (λ lsn. lsn ≡ length records.old) }
    ensures records { OnOk result (records.new ≡ records.old ++ rec.now ∷ []) }
    ensures batch { OnOk result (batch.new ≡ batch.old ++ rec.now ∷ []) }
    ensures only { (need room : ℕ) → IsErrOf result (append_faults.LogFull need room) → ⊥ }
    ensures same_records { OnErr result (records.new ≡ records.old) }
    ensures same_batch { OnErr result (batch.new ≡ batch.old) }
{
    let lsn = records.len();
    records.push(rec.copy()?)?;
    if batch.add(rec).is_err() {
        records.truncate(lsn);
        return Err(AppendFault::NoMemory);
    }
    Ok(lsn as Lsn)
}

// Copies of a server's records, in order.
fn scan_records(
    alloc: Global,
    records: &[Record],
    server: ServerNo,
) -> Result<List<Record>, NoMemory>
    ensures { IfOk result (λ found. found ≡ filter (is_of server.0) records.now) }
{
    let mut found = List::new(alloc);
    for rec in records {
        add_if_of(&mut found, rec, server)?;
    }
    Ok(found)
}

// Adds a copy of a record that is one of a server's.
fn add_if_of(found: &mut List<Record>, rec: &Record, server: ServerNo) -> Result<(), NoMemory>
    ensures { OnOk result (found.new ≡ found.old ++ filter (is_of server.0) (rec.now ∷ [])) }
{
    if is_of(rec, server) {
        found.push(rec.copy()?)
    } else {
        Ok(())
    }
}

// Whether a record is one of a server's.
fn is_of(rec: &Record, server: ServerNo) -> bool
    ensures { result ≡ is_of server.0 rec.now }
{
    match rec {
        Record::Prepare { server: own, .. } => own.0 == server.0,
        Record::Commit { .. } | Record::Aborted { .. } | Record::End { .. } => server.0 == MANAGER,
    }
}
