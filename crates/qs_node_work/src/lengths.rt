//! How many bytes spell a record, where the sum may pass a `u64`.
ghost use Rattle.std.specs.Prelude.{◌≡◌, ◌+◌, IfOk, length, sum_by};
ghost use Rattle.qs_ops.specs.Spelled.{op_length};
ghost use Rattle.qs_record.specs.Grammar.{record_length};

use qs_base::{Bytes, NoMemory};
use qs_ops::Op;
use qs_record::Record;

/// The bytes of a Prepare beside its changes.
const PREPARE_HEAD: u64 = 23;

/// The bytes of a Commit beside its list.
const COMMIT_HEAD: u64 = 15;

/// The bytes of an Aborted and of an End.
const END_LENGTH: u64 = 14;

/// How many bytes spell the record; a sum that passes a `u64` is a refusal of memory.
pub fn record_length(rec: &Record) -> Result<u64, NoMemory>
    ensures { IfOk result (λ bytes. bytes ≡ record_length rec.now) }
{
    match rec {
        Record::Prepare { changes, .. } => add(PREPARE_HEAD, changes_length(changes.as_slice())?),
        Record::Commit { told, .. } => add(COMMIT_HEAD, told.len() as u64),
        Record::Aborted { .. } | Record::End { .. } => Ok(END_LENGTH),
    }
}

// How many bytes spell the operation.
fn op_length(op: &Op) -> Result<u64, NoMemory>
    ensures { IfOk result (λ bytes. bytes ≡ op_length op.now) }
{
    match op {
        Op::Put { name, text }
        | Op::Append { name, text }
        | Op::Bind { name, text }
        | Op::Window { name, text }
        | Op::Keep { name, text } => plus(plus(9, name)?, text),
        Op::Del { name }
        | Op::Get { name }
        | Op::Find { name }
        | Op::Left { name }
        | Op::Title { name }
        | Op::Fetch { name } => plus(5, name),
        Op::Timer { name, .. } => plus(9, name),
        Op::Note { text } => plus(5, text),
        Op::Extra { text, .. } => plus(9, text),
        Op::Listing | Op::Notes => Ok(1),
        Op::Lend { .. } => Ok(2),
    }
}

// How many bytes spell all these changes.
fn changes_length(changes: &[Op]) -> Result<u64, NoMemory>
    ensures { IfOk result (λ bytes. bytes ≡ sum_by op_length changes.now) }
{
    let mut bytes = 0u64;
    for op in changes {
        bytes = add(bytes, op_length(op)?)?;
    }
    Ok(bytes)
}

// The sum, where it fits.
fn add(bytes: u64, more: u64) -> Result<u64, NoMemory>
    ensures { IfOk result (λ sum. sum ≡ bytes + more) }
{
    bytes.checked_add(more).ok_or(NoMemory)
}

// So many bytes and a text.
fn plus(bytes: u64, text: &Bytes) -> Result<u64, NoMemory>
    ensures { IfOk result (λ sum. sum ≡ bytes + length text.now) }
{
    add(bytes, text.len() as u64)
}
