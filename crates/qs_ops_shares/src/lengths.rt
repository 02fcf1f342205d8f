//! How many bytes spell an operation, where the sum may pass a `u64`.
ghost use Rattle.std.specs.Prelude.{◌≡◌, ◌+◌, IfOk, length, sum_by};
ghost use Rattle.qs_ops.specs.Spelled.{op_length};

use qs_base::{Bytes, NoMemory};
use qs_ops::Op;

/// How many bytes spell the operation; a sum that passes a `u64` is a refusal of memory.
pub fn op_length(op: &Op) -> Result<u64, NoMemory>
    ensures { IfOk result (λ bytes. bytes ≡ op_length op.now) }
{
    match op {
        Op::Put { name, text }
        | Op::Append { name, text }
        | Op::Bind { name, text }
        | Op::Window { name, text }
        | Op::Keep { name, text } => plus(plus(9, name)?, text),
        Op::Del { name }
        | Op::Get { name }
        | Op::Find { name }
        | Op::Left { name }
        | Op::Title { name }
        | Op::Fetch { name } => plus(5, name),
        Op::Timer { name, .. } => plus(9, name),
        Op::Note { text } => plus(5, text),
        Op::Extra { text, .. } => plus(9, text),
        Op::Listing | Op::Notes => Ok(1),
        Op::Lend { .. } => Ok(2),
    }
}

/// How many bytes spell all these changes; a sum that passes a `u64` is a refusal of memory.
pub fn changes_length(changes: &[Op]) -> Result<u64, NoMemory>
    ensures { IfOk result (λ bytes. bytes ≡ sum_by op_length changes.now) }
{
    let mut bytes = 0u64;
    for op in changes {
        bytes = add(bytes, op_length(op)?)?;
    }
    Ok(bytes)
}

/// The sum, where it fits.
pub fn add(bytes: u64, more: u64) -> Result<u64, NoMemory>
    ensures { IfOk result (λ sum. sum ≡ bytes + more) }
{
    bytes.checked_add(more).ok_or(NoMemory)
}

// So many bytes and a text.
fn plus(bytes: u64, text: &Bytes) -> Result<u64, NoMemory>
    ensures { IfOk result (λ sum. sum ≡ bytes + length text.now) }
{
    add(bytes, text.len() as u64)
}
