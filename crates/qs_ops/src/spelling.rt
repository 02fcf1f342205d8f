//! How long operations and Prepare records are in bytes.
ghost use Rattle.std.specs.Prelude.{◌≡◌, ◌≤◌, length};
ghost use Rattle.qs_ops.specs.Spelled.{IsSpelled, AreChanges, is_change, op_length, prepare_length};

use crate::operation::{Changes, Op};
use qs_base::Bytes;

/// The bytes of a Prepare record before its changes: tag, identifier, server, covers and count.
const PREPARE_HEAD: u64 = 23;

/// Whether the operation changes its server's state; of the further server each may.
pub fn is_change(op: &Op) -> bool
    ensures { result ≡ is_change op.now }
{
    match op {
        Op::Put { .. } | Op::Append { .. } | Op::Del { .. } | Op::Note { .. } => true,
        Op::Bind { .. } | Op::Timer { .. } | Op::Window { .. } | Op::Keep { .. } => true,
        Op::Extra { .. } => true,
        Op::Get { .. } | Op::Listing | Op::Notes | Op::Find { .. } | Op::Left { .. } => false,
        Op::Title { .. } | Op::Fetch { .. } | Op::Lend { .. } => false,
    }
}

/// How many bytes spell the operation.
pub fn op_length(op: &Op) -> u64
    requires { IsSpelled op.now }
    ensures value { result ≡ op_length op.now }
    ensures short { result ≤ 4169 }
{
    match op {
        Op::Put { name, text }
        | Op::Append { name, text }
        | Op::Bind { name, text }
        | Op::Window { name, text }
        | Op::Keep { name, text } => 9 + size(name) + size(text),
        Op::Del { name } | Op::Get { name } | Op::Find { name } | Op::Left { name } => 5
            + size(name),
        Op::Title { name } | Op::Fetch { name } => 5 + size(name),
        Op::Note { text } => 5 + size(text),
        Op::Timer { name, .. } => 9 + size(name),
        Op::Extra { text, .. } => 9 + size(text),
        Op::Listing | Op::Notes => 1,
        Op::Lend { .. } => 2,
    }
}

/// How many bytes spell a Prepare record of these changes.
pub fn prepare_length(changes: &Changes) -> u64
    requires { AreChanges changes.now }
    ensures { result ≡ prepare_length changes.now }
{
    let mut length = PREPARE_HEAD;
    for op in changes.as_slice() {
        length += op_length(op);
    }
    length
}

// How many bytes a name or a text has.
fn size(bytes: &Bytes) -> u64
    ensures { result ≡ length bytes.now }
{
    bytes.len() as u64
}
