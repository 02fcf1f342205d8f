//! Whether sums of lengths are some number. They count down from it, so that nothing overflows.
ghost use Rattle.std.specs.Prelude.{◌≡◌, ◌↔◌, ◌+◌, ◌≤◌, ◌-◌, IsTrue, SomeIff};
ghost use Rattle.qs_ops.specs.Spelled.{op_length, prepare_length};

use qs_base::Bytes;
use qs_ops::Op;

/// The bytes of a Prepare record before its changes: tag, identifier, server, covers and count.
const PREPARE_HEAD: u64 = 23;

/// What is left of `left` without the bytes that spell the operation; `None` where they are more.
fn without_op(left: u64, op: &Op) -> Option<u64>
    ensures { SomeIff result (op_length op.now ≤ left) (left - op_length op.now) }
{
    match op {
        Op::Put { name, text }
        | Op::Append { name, text }
        | Op::Bind { name, text }
        | Op::Window { name, text }
        | Op::Keep { name, text } => without(left, 9, name.len(), text.len()),
        Op::Del { name }
        | Op::Get { name }
        | Op::Find { name }
        | Op::Left { name }
        | Op::Title { name }
        | Op::Fetch { name } => without(left, 5, name.len(), 0),
        Op::Timer { name, .. } => without(left, 9, name.len(), 0),
        Op::Note { text } => without(left, 5, text.len(), 0),
        Op::Extra { text, .. } => without(left, 9, text.len(), 0),
        Op::Listing | Op::Notes => without(left, 1, 0, 0),
        Op::Lend { .. } => without(left, 2, 0, 0),
    }
}

/// What is left of `left` without three counts; `None` where they are more.
fn without(left: u64, head: u64, first: usize, second: usize) -> Option<u64>
    ensures { SomeIff result (head + first + second ≤ left) (left - (head + first + second)) }
{
    left.checked_sub(head)?
        .checked_sub(first as u64)?
        .checked_sub(second as u64)
}

/// Whether just so many bytes spell a Prepare record of these changes.
pub fn has_prepare_length(changes: &[Op], length: u64) -> bool
    ensures { IsTrue result ↔ (prepare_length changes.now ≡ length) }
{
    let Some(mut left) = length.checked_sub(PREPARE_HEAD) else {
        return false;
    };
    for op in changes {
        let Some(rest) = without_op(left, op) else {
            return false;
        };
        left = rest;
    }
    left == 0
}
