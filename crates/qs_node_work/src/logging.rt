//! Records that a step appends to the log.
ghost use Rattle.std.specs.Prelude.{◌≡◌, ◌||◌, IfOk, OnOk};
ghost use Rattle.std.specs.Option.{option_copied};
ghost use Rattle.qs_node_step.specs.State.{part_of};
ghost use Rattle.qs_node_step.specs.Bringing.{tid_of, is_forced, record_need, kept_for, log, log_if};

use crate::lengths::record_length;
use qs_base::{NoMemory, Tid};
use qs_node_servers::Servers;
use qs_node_step::{Setting, Work};
use qs_ops::Server;
use qs_record::Record;
use qs_tm::Participant;

/// The bytes of a batch beside its records.
const BATCH_FRAME: u64 = 41;

/// The record is appended, and the bytes that it takes are free no longer. A record of 2^64 bytes or
/// more is a refusal of memory too.
pub fn log<F: Server, X: Server>(
    work: &mut Work<Servers<F, X>>,
    rec: Record,
) -> Result<(), NoMemory>
    ensures ok { OnOk result (work.new ≡ log rec work.old) }
    ensures saved { work.new.node.kept.saved ≡ work.old.node.kept.saved }
{
    let tid = tid_of(&rec);
    let need = record_need(&work.node.setting, &rec)?;
    let kept = kept_for(&work.node.setting, work.node.manager.part(tid));
    work.room = work.room.saturating_sub(need).saturating_sub(kept);
    work.out.force = is_forced_by(work.out.force, &rec);
    work.node.manager.logged(tid, &rec);
    work.out.records.push(rec)
}

/// It is appended, where there is one.
pub fn log_if<F: Server, X: Server>(
    work: &mut Work<Servers<F, X>>,
    rec: Option<Record>,
) -> Result<(), NoMemory>
    ensures ok { OnOk result (work.new ≡ log_if rec work.old) }
    ensures saved { work.new.node.kept.saved ≡ work.old.node.kept.saved }
{
    match rec {
        Some(rec) => log(work, rec),
        None => Ok(()),
    }
}

fn tid_of(rec: &Record) -> Tid
    ensures { result ≡ tid_of rec.now }
{
    match rec {
        Record::Prepare { tid, .. }
        | Record::Commit { tid, .. }
        | Record::Aborted { tid }
        | Record::End { tid } => *tid,
    }
}

fn is_forced(rec: &Record) -> bool
    ensures { result ≡ is_forced rec.now }
{
    match rec {
        Record::Prepare { .. } | Record::Commit { .. } => true,
        Record::Aborted { .. } | Record::End { .. } => false,
    }
}

/// Whether the log is to be forced, with this record too.
fn is_forced_by(forced: bool, rec: &Record) -> bool
    ensures { result ≡ (forced || is_forced rec.now) }
{
    forced || is_forced(rec)
}

/// The bytes that it takes in a batch of its own.
fn record_need(setting: &Setting, rec: &Record) -> Result<u64, NoMemory>
    ensures { IfOk result (λ need. need ≡ record_need setting.now rec.now) }
{
    let length = record_length(rec)?;
    BATCH_FRAME
        .checked_add(setting.extra)
        .and_then(|frame| frame.checked_add(length))
        .ok_or(NoMemory)
}

/// The bytes that are kept from a transaction's first record on.
fn kept_for(setting: &Setting, part: Option<&Participant>) -> u64
    ensures { result ≡ kept_for setting.now (option_copied part.entry) }
{
    match part {
        Some(part) if part.log.unended => 0,
        Some(_) => setting.keep,
        None => 0,
    }
}
