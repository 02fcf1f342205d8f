//! The log of a node in its next incarnation.
ghost use Rattle.std.specs.Prelude.{◌≡◌, ◌≢◌, ◌↔◌, ◌⊎◌, ◌<◌, ◌+◌, ◌-◌, ◌^◌, ℕ, List, [], Ok, IfOk, IfErr};
ghost use Rattle.qs_base.specs.Causes.{Rose};
ghost use Rattle.qs_disk.specs.Disk.{EachImage};
ghost use Rattle.qs_disk.specs.Fuse.{GoesOn, mended};
ghost use Rattle.qs_disk.specs.Moments.{Keeps};
ghost use Rattle.qs_log_start.specs.Incarnation.{open_limit, IsRaisedLog, IsReopened, IsTouched, MayLeaveUnraised, IsLeftOrRaised, HasOneOf, IsArmed, HasTripped, disk_of, reopen_limit, IsLeftDamaged, HasLogBelow};
ghost use Rattle.qs_log_start.specs.declared.incarnation.ReopenFault.TheVariants as reopen_faults;
ghost use Rattle.qs_log.specs.Image.{IsDamaged};
ghost use Rattle.qs_log.specs.Log.{Stands, HasSameRecords, IsOldOrRaised, raised_of, top_of};
ghost use Rattle.qs_log.specs.Log.{disk_of as log_disk};
ghost use Rattle.qs_log.specs.declared.fault.OpenFault.TheVariants as open_faults;
ghost use Rattle.qs_record.specs.declared.record.Record.{Record};
ghost use Rattle.qs_slot.specs.Slot.{StandBelow, slots_in};

use crate::counts::FaultCounts;
use qs_base::List;
use qs_disk::{Disk, DiskFailed, Fused};
use qs_log::{Log, LogOpen, OpenFault};
use std::alloc::Global;
use thiserror::Error;

/// Slots stand below this as a run begins.
const OPEN_LIMIT: u64 = 1 << 61;

/// Slots stand below this where a node starts again.
const REOPEN_LIMIT: u64 = (1 << 62) - 1;

/// Why the log of a node that is down did not begin its next incarnation.
#[derive(Clone, Copy, Debug, Error)]
pub enum ReopenFault {
    /// The fuse tripped.
    #[error("the fuse tripped")]
    Tripped,
    /// The disk itself failed a call.
    #[error("a disk call failed")]
    DiskFailed,
    /// The log is damaged at that byte.
    #[error("the log is damaged at byte {at}")]
    Damaged { at: u64 },
    /// Memory was refused.
    #[error("memory was refused")]
    NoMemory,
}

/// The disk of a log that did not begin its next incarnation, and why.
#[derive(Drop)]
pub struct LogReopen<D: Disk> {
    pub disk: Fused<D>,
    pub why: ReopenFault,
}

/// The log is opened and its incarnation raised.
fn next_incarnation<D: Disk>(
    alloc: Global,
    disk: Fused<D>,
    limit: u64,
) -> Result<Log<Fused<D>>, LogOpen<Fused<D>>>
    requires limit { limit < 2 ^ 62 }
    requires some { 0 < limit }
    ensures raised { D.told → IfOk result (IsRaisedLog limit (D.state disk.disk).content) }
    ensures inc { IfOk result (λ log. log.slots.present.value.inc < 2 ^ 62) }
    ensures below { D.told → IfOk result (λ log. EachImage (StandBelow (limit + 1)) (D.state log.disk.disk).now) }
    ensures stands { D.told → IfOk result (λ log. Stands log (D.state log.disk.disk)) }
    ensures waiting { IfOk result (λ log. log.waiting ≡ []) }
    ensures damaged { D.told → IfErr result (λ back. (at : ℕ) → back.why ≡ open_faults.Damaged at → IsDamaged limit (D.state disk.disk).content at) }
    ensures moments { D.told → Keeps (IsTouched (D.state disk.disk)) (D.state disk.disk) (D.state (log_disk result).disk) }
    ensures kept { D.told → IfErr result (λ back. MayLeaveUnraised (D.state disk.disk) (D.state back.disk.disk)) }
    ensures size { D.byte_count (log_disk result).disk ≡ D.byte_count disk.disk }
    ensures goes { GoesOn disk.fuse (log_disk result).fuse }
{
    match Log::open(alloc, disk, limit) {
        Ok(log) => raise(log),
        Err(back) => Err(back),
    }
}

/// The incarnation of the log is raised.
fn raise<D: Disk>(log: Log<Fused<D>>) -> Result<Log<Fused<D>>, LogOpen<Fused<D>>>
    requires below { top_of log.slots.present < 2 ^ 62 - 1 }
    requires stands { D.told → Stands log (D.state log.disk.disk) }
    ensures raised { IfOk result (λ new. new.slots.present ≡ raised_of log.slots.present) }
    ensures inc { IfOk result (λ new. new.slots.present.value.inc < 2 ^ 62) }
    ensures same { IfOk result (HasSameRecords log) }
    ensures stands { D.told → IfOk result (λ new. Stands new (D.state new.disk.disk)) }
    ensures failed { IfErr result (λ back. back.why ≡ open_faults.DiskFailed) }
    ensures moments { D.told → Keeps (IsOldOrRaised log) (D.state log.disk.disk) (D.state (log_disk result).disk) }
    ensures kept { D.told → IfErr result (λ back. MayLeaveUnraised (D.state log.disk.disk) (D.state back.disk.disk)) }
    ensures below { D.told → (limit : ℕ) → slots_in limit (D.state log.disk.disk).content ≡ Ok log.slots.present
        → top_of log.slots.present + 1 < limit → Keeps (StandBelow limit) (D.state log.disk.disk) (D.state (log_disk result).disk) }
    ensures size { D.byte_count (log_disk result).disk ≡ D.byte_count log.disk.disk }
    ensures goes { GoesOn log.disk.fuse (log_disk result).fuse }
{
    let mut log = log;
    match log.raise() {
        Ok(_) => Ok(log),
        Err(DiskFailed) => Err(LogOpen {
            disk: log.into_disk(),
            why: OpenFault::DiskFailed,
        }),
    }
}

/// The log of a node as a run begins: it is opened, its slots standing below 2^61, and its incarnation raised; from then on
/// the fuse trips at the planned calls. `DiskFailed` comes only where the disk's own count of faults rose, `NoMemory` where
/// memory was refused or the fuse tripped.
pub fn begin_run<D: Disk>(
    alloc: Global,
    disk: Fused<D>,
    stops: List<u64>,
) -> Result<Log<Fused<D>>, LogOpen<Fused<D>>>
    // The log, and the fuse before its disk.
    ensures raised { D.told → IfOk result (IsRaisedLog open_limit (D.state disk.disk).content) }
    ensures inc { IfOk result (λ log. log.slots.present.value.inc < 2 ^ 62) }
    ensures stands { D.told → IfOk result (λ log. Stands log (D.state log.disk.disk)) }
    ensures waiting { IfOk result (λ log. log.waiting ≡ []) }
    ensures armed { IfOk result (λ log. IsArmed stops log.disk.fuse) }
    ensures below { D.told → IfOk result (λ log. EachImage (StandBelow (open_limit + 1)) (D.state log.disk.disk).now) }

    // Why it is not opened.
    ensures damaged { D.told → IfErr result (λ back. (at : ℕ) → back.why ≡ open_faults.Damaged at → IsDamaged open_limit (D.state disk.disk).content at) }
    ensures failed { IfErr result (λ back. back.why ≡ open_faults.DiskFailed → Rose (D.fault_count disk.disk) (D.fault_count back.disk.disk)) }
    ensures goes { IfErr result (λ back. GoesOn disk.fuse back.disk.fuse) }

    // The disk is changed at most by the raise, and where the log is not opened a power cut may still leave it unraised.
    ensures moments { D.told → Keeps (IsTouched (D.state disk.disk)) (D.state disk.disk) (D.state (log_disk result).disk) }
    ensures kept { D.told → IfErr result (λ back. MayLeaveUnraised (D.state disk.disk) (D.state back.disk.disk)) }
    ensures size { D.byte_count (log_disk result).disk ≡ D.byte_count disk.disk }
{
    let before = FaultCounts::of(&disk);
    match next_incarnation(alloc, disk, OPEN_LIMIT) {
        Ok(log) => {
            let mut log = log;
            log.arm(stops);
            Ok(log)
        }
        Err(LogOpen { disk, why }) => {
            let why = own_fault(before, FaultCounts::of(&disk), why);
            Err(LogOpen { disk, why })
        }
    }
}

/// A call of the disk failed, or only its fuse tripped.
fn own_fault(before: FaultCounts, now: FaultCounts, why: OpenFault) -> OpenFault
    ensures failed { result ≡ open_faults.DiskFailed → Rose before.own now.own }
    ensures damaged { (at : ℕ) → result ≡ open_faults.Damaged at → why ≡ open_faults.Damaged at }
{
    if before.has_failed(now) {
        return why;
    }
    match why {
        OpenFault::DiskFailed | OpenFault::NoMemory => OpenFault::NoMemory,
        OpenFault::Damaged { at } => OpenFault::Damaged { at },
    }
}

/// The log of a node that is down: the power is cut, the log of what that leaves is opened, and its incarnation raised.
/// `Tripped` comes exactly where the fuse tripped in this call, `DiskFailed` only where the disk's own count of faults rose,
/// `Damaged` only where what the power cut left is damaged there, which no image is that has a log with slots below the limit.
pub fn begin_again<D: Disk>(alloc: Global, disk: Fused<D>) -> Result<Log<Fused<D>>, LogReopen<D>>
    // The log.
    ensures reopened { D.told → IfOk result (IsReopened (D.state disk.disk)) }
    ensures inc { IfOk result (λ log. log.slots.present.value.inc < 2 ^ 62) }
    ensures stands { D.told → IfOk result (λ log. Stands log (D.state log.disk.disk)) }
    ensures waiting { IfOk result (λ log. log.waiting ≡ []) }
    ensures found { D.told → IfOk result (λ log. (a b : List Record) → EachImage (HasOneOf a b) (D.state disk.disk).now → (log.forced ≡ a) ⊎ (log.forced ≡ b)) }

    // Why it is not opened.
    ensures tripped { IfErr result (λ back. (back.why ≡ reopen_faults.Tripped) ↔ HasTripped disk back.disk) }
    ensures failed { IfErr result (λ back. back.why ≡ reopen_faults.DiskFailed → Rose (D.fault_count disk.disk) (D.fault_count back.disk.disk)) }
    ensures damaged { D.told → IfErr result (λ back. (at : ℕ) → back.why ≡ reopen_faults.Damaged at → IsLeftDamaged (D.state disk.disk) at) }
    ensures sound { D.told → EachImage (HasLogBelow reopen_limit) (D.state disk.disk).now → IfErr result (λ back. (at : ℕ) → back.why ≢ reopen_faults.Damaged at) }

    // Each image has the records that images had before, and is changed at most by the raise.
    ensures moments { D.told → (a b : List Record) → EachImage (HasOneOf a b) (D.state disk.disk).now
        → Keeps (HasOneOf a b) (D.state disk.disk) (D.state (disk_of result).disk) }
    ensures touched { D.told → Keeps (IsLeftOrRaised (D.state disk.disk)) (D.state disk.disk) (D.state (disk_of result).disk) }
    ensures size { D.byte_count (disk_of result).disk ≡ D.byte_count disk.disk }

    // What tripped did so at a planned call: the power cut mends the fuse, and counts as none.
    ensures goes { GoesOn (mended disk.fuse) (disk_of result).fuse }
{
    let before = FaultCounts::of(&disk);
    match after_power_cut(alloc, disk) {
        Ok(log) => Ok(log),
        Err(LogOpen { disk, why }) => Err(not_begun(before, disk, why)),
    }
}

/// The log that a power cut leaves is opened and its incarnation raised.
fn after_power_cut<D: Disk>(
    alloc: Global,
    disk: Fused<D>,
) -> Result<Log<Fused<D>>, LogOpen<Fused<D>>>
    ensures reopened { D.told → IfOk result (IsReopened (D.state disk.disk)) }
    ensures inc { IfOk result (λ log. log.slots.present.value.inc < 2 ^ 62) }
    ensures stands { D.told → IfOk result (λ log. Stands log (D.state log.disk.disk)) }
    ensures waiting { IfOk result (λ log. log.waiting ≡ []) }
    ensures found { D.told → IfOk result (λ log. (a b : List Record) → EachImage (HasOneOf a b) (D.state disk.disk).now → (log.forced ≡ a) ⊎ (log.forced ≡ b)) }
    ensures moments { D.told → (a b : List Record) → EachImage (HasOneOf a b) (D.state disk.disk).now
        → Keeps (HasOneOf a b) (D.state disk.disk) (D.state (log_disk result).disk) }
    ensures damaged { D.told → IfErr result (λ back. (at : ℕ) → back.why ≡ open_faults.Damaged at → IsLeftDamaged (D.state disk.disk) at) }
    ensures touched { D.told → Keeps (IsLeftOrRaised (D.state disk.disk)) (D.state disk.disk) (D.state (log_disk result).disk) }
    ensures size { D.byte_count (log_disk result).disk ≡ D.byte_count disk.disk }
    ensures goes { GoesOn (mended disk.fuse) (log_disk result).fuse }
{
    let mut disk = disk;
    match disk.power_cut() {
        Ok(()) => next_incarnation(alloc, disk, REOPEN_LIMIT),
        Err(DiskFailed) => Err(LogOpen {
            disk,
            why: OpenFault::DiskFailed,
        }),
    }
}

/// What a node that is down is left with, whose disk had counted this before.
pub fn not_begun<D: Disk>(before: FaultCounts, disk: Fused<D>, why: OpenFault) -> LogReopen<D>
    ensures disk { result.disk ≡ disk }
    ensures tripped { (result.why ≡ reopen_faults.Tripped) ↔ (disk.fuse.trips ≢ before.trips) }
    ensures failed { result.why ≡ reopen_faults.DiskFailed → Rose before.own (D.fault_count disk.disk) }
    ensures damaged { (at : ℕ) → result.why ≡ reopen_faults.Damaged at → why ≡ open_faults.Damaged at }
    ensures passed { (at : ℕ) → why ≡ open_faults.Damaged at → result.why ≢ reopen_faults.NoMemory }
{
    let now = FaultCounts::of(&disk);
    let why = reopen_fault(before, now, why);
    LogReopen { disk, why }
}

fn reopen_fault(before: FaultCounts, now: FaultCounts, why: OpenFault) -> ReopenFault
    ensures tripped { (result ≡ reopen_faults.Tripped) ↔ (now.trips ≢ before.trips) }
    ensures failed { result ≡ reopen_faults.DiskFailed → Rose before.own now.own }
    ensures damaged { (at : ℕ) → result ≡ reopen_faults.Damaged at → why ≡ open_faults.Damaged at }
    ensures passed { (at : ℕ) → why ≡ open_faults.Damaged at → result ≢ reopen_faults.NoMemory }
{
    if before.has_tripped(now) {
        return ReopenFault::Tripped;
    }
    match why {
        OpenFault::DiskFailed => failed_or_refused(before, now),
        OpenFault::Damaged { at } => ReopenFault::Damaged { at },
        OpenFault::NoMemory => ReopenFault::NoMemory,
    }
}

fn failed_or_refused(before: FaultCounts, now: FaultCounts) -> ReopenFault
    ensures tripped { result ≢ reopen_faults.Tripped }
    ensures failed { result ≡ reopen_faults.DiskFailed → Rose before.own now.own }
    ensures damaged { (at : ℕ) → result ≢ reopen_faults.Damaged at }
{
    if before.has_failed(now) {
        return ReopenFault::DiskFailed;
    }
    ReopenFault::NoMemory
}
