//! How the records of a step go to the log.
ghost use Rattle.std.specs.Prelude.{◌≡◌, ◌≢◌, ◌≤◌, ◌↔◌, true, [], OnOk, OnErr, fold, Err, All};
ghost use Rattle.qs_base.specs.Causes.{HasCause, Rose};
ghost use Rattle.qs_disk.specs.Moments.{Keeps};
ghost use Rattle.qs_log.specs.Log.{Stands, records_of};
ghost use Rattle.qs_record.specs.Grammar.{IsRecord};
ghost use Rattle.qs_node_room.specs.Room.{opened, ended, after_record};
ghost use Rattle.qs_slot.specs.Slot.{SayTheSame};
ghost use Rattle.qs_node_host.specs.Host.{AreUnended, HasBatch, IsLogAfter, IsOldOrAfter, HasEither, forced_if, with_record};
ghost use Rattle.qs_node_host.specs.Roomy.{IsFullFor, LacksRoom};
ghost use Rattle.qs_node_host.specs.Spelled.{AreSpelled};
ghost use Rattle.qs_node_host.specs.declared.fault.HostFault.TheVariants.{Disk as OfDisk, NoRoom as OfRoom};

use crate::fault::HostFault;
use qs_base::Tid;
use qs_disk::{Disk, DiskFailed};
use qs_log::Log;
use qs_node_room::{Boundary, Unended, boundary_of};
use qs_node_step::Effects;
use qs_record::Record;

/// The record waits. `NoRoom` comes only where the log has no room for it. After a refusal all is as it was.
fn append<D: Disk>(log: &mut Log<D>, unended: &mut Unended, rec: &Record) -> Result<(), HostFault>
    requires { IsRecord rec.now }
    ensures full { result ≡ Err OfRoom → IsFullFor (D.byte_count log.old.disk) log.old rec.now }
    ensures no_call { result ≢ Err OfDisk }
    ensures log { OnOk result (log.new ≡ with_record log.old rec.now) }
    ensures unended { OnOk result (unended.new ≡ after_record unended.old rec.now) }
    ensures log_stays { OnErr result (log.new ≡ log.old) }
    ensures unended_stays { OnErr result (unended.new ≡ unended.old) }
    ensures disk { log.new.disk ≡ log.old.disk }
    ensures stands { D.told → Stands log.old (D.state log.old.disk) → Stands log.new (D.state log.new.disk) }
{
    match boundary_of(rec) {
        Boundary::Opens { tid } => append_open(log, unended, rec, tid),
        Boundary::Ends { tid } => append_end(log, unended, rec, tid),
    }
}

/// The record waits, of a transaction that it does not end. `NoRoom` comes only where the log has no room for it. After a
/// refusal all is as it was.
fn append_open<D: Disk>(
    log: &mut Log<D>,
    unended: &mut Unended,
    rec: &Record,
    tid: Tid,
) -> Result<(), HostFault>
    requires { IsRecord rec.now }
    ensures full { result ≡ Err OfRoom → IsFullFor (D.byte_count log.old.disk) log.old rec.now }
    ensures no_call { result ≢ Err OfDisk }
    ensures log { OnOk result (log.new ≡ with_record log.old rec.now) }
    ensures unended { OnOk result (unended.new ≡ opened tid unended.old) }
    ensures log_stays { OnErr result (log.new ≡ log.old) }
    ensures unended_stays { OnErr result (unended.new ≡ unended.old) }
    ensures disk { log.new.disk ≡ log.old.disk }
    ensures stands { D.told → Stands log.old (D.state log.old.disk) → Stands log.new (D.state log.new.disk) }
{
    let added = unended.open(tid)?;
    match log.append(rec) {
        Ok(_) => Ok(()),
        Err(fault) => {
            if added {
                unended.end(tid);
            }
            Err(fault.into())
        }
    }
}

/// The record waits, which ends the transaction. `NoRoom` comes exactly where the log has no room for it. After a refusal all
/// is as it was.
fn append_end<D: Disk>(
    log: &mut Log<D>,
    unended: &mut Unended,
    rec: &Record,
    tid: Tid,
) -> Result<(), HostFault>
    requires { IsRecord rec.now }
    ensures full { (result ≡ Err OfRoom) ↔ IsFullFor (D.byte_count log.old.disk) log.old rec.now }
    ensures no_call { result ≢ Err OfDisk }
    ensures log { OnOk result (log.new ≡ with_record log.old rec.now) }
    ensures unended { OnOk result (unended.new ≡ ended tid unended.old) }
    ensures log_stays { OnErr result (log.new ≡ log.old) }
    ensures unended_stays { OnErr result (unended.new ≡ unended.old) }
    ensures disk { log.new.disk ≡ log.old.disk }
    ensures stands { D.told → Stands log.old (D.state log.old.disk) → Stands log.new (D.state log.new.disk) }
{
    log.append(rec)?;
    unended.end(tid);
    Ok(())
}

/// The records wait, in order. `NoRoom` comes only where the log has no room for one of them as its turn comes. After a refusal
/// some of them may wait; the unended transactions are those of the log even so.
fn append_all<D: Disk>(
    log: &mut Log<D>,
    unended: &mut Unended,
    records: &[Record],
) -> Result<(), HostFault>
    requires { All IsRecord records.now }
    ensures full { result ≡ Err OfRoom → LacksRoom (D.byte_count log.old.disk) log.old records.now }
    ensures no_call { result ≢ Err OfDisk }
    ensures log { OnOk result (log.new ≡ fold with_record log.old records.now) }
    ensures unended { AreUnended unended.old log.old → AreUnended unended.new log.new }
    ensures disk { log.new.disk ≡ log.old.disk }
    ensures stands { D.told → Stands log.old (D.state log.old.disk) → Stands log.new (D.state log.new.disk) }
{
    for rec in records {
        append(log, unended, rec)?;
    }
    Ok(())
}

/// All that waits is forced where that is due. After a fault only the disk of the log is of use.
fn force_if<D: Disk>(log: &mut Log<D>, due: bool) -> Result<(), DiskFailed>
    requires stands { D.told → Stands log.old (D.state log.old.disk) }
    ensures log { OnOk result (log.new ≡ record (forced_if due log.old) { disk = log.new.disk }) }
    ensures records { records_of log.new ≡ records_of log.old }
    ensures stands { D.told → OnOk result (Stands log.new (D.state log.new.disk)) }
    ensures moments { D.told → Keeps (HasEither log.old (forced_if due log.old)) (D.state log.old.disk) (D.state log.new.disk) }
    ensures header { D.told → Keeps (SayTheSame (D.state log.old.disk).content) (D.state log.old.disk) (D.state log.new.disk) }
    ensures size { D.byte_count log.new.disk ≡ D.byte_count log.old.disk }
    ensures leads { D.leads_to log.old.disk log.new.disk }
    ensures cause { HasCause (D.fault_count log.old.disk) (D.fault_count log.new.disk) result }
    ensures due { OnErr result (due ≡ true) }
    ensures some { OnErr result (log.old.waiting ≢ []) }
{
    if due {
        return log.force();
    }
    Ok(())
}

/// The records wait, and are forced where they are to be. `NoRoom` comes only where the log has no room for one of them as its
/// turn comes. After a fault only the disk of the log is of use.
pub fn append_and_force<D: Disk>(
    log: &mut Log<D>,
    unended: &mut Unended,
    out: &Effects,
) -> Result<(), HostFault>
    requires spelled { AreSpelled out.now }
    requires stands { D.told → Stands log.old (D.state log.old.disk) }
    ensures log { OnOk result (IsLogAfter out.now log.old log.new) }
    ensures unended { AreUnended unended.old log.old → AreUnended unended.new log.new }
    ensures stands { D.told → OnOk result (Stands log.new (D.state log.new.disk)) }
    ensures moments { D.told → Keeps (IsOldOrAfter out.now log.old) (D.state log.old.disk) (D.state log.new.disk) }
    ensures header { D.told → Keeps (SayTheSame (D.state log.old.disk).content) (D.state log.old.disk) (D.state log.new.disk) }
    ensures size { D.byte_count log.new.disk ≡ D.byte_count log.old.disk }
    ensures leads { D.leads_to log.old.disk log.new.disk }
    ensures later { D.fault_count log.old.disk ≤ D.fault_count log.new.disk }
    ensures cause { result ≡ Err OfDisk → Rose (D.fault_count log.old.disk) (D.fault_count log.new.disk) }
    ensures batch { result ≡ Err OfDisk → HasBatch out.now log.old }
    ensures full { result ≡ Err OfRoom → LacksRoom (D.byte_count log.old.disk) log.old out.now.records }
{
    append_all(log, unended, out.records.as_slice())?;
    force_if(log, out.force)?;
    Ok(())
}
