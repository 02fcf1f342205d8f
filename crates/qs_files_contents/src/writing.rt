//! Changes that write files.
ghost use Rattle.std.specs.Prelude.{OnOk};
ghost use Rattle.qs_files_contents.specs.Written.{AddsAppends, AddsFile};

use qs_base::{Bytes, Copied, NoMemory};
use qs_ops::{Changes, Op};
use std::alloc::Global;

/// How many bytes of a file one change writes.
const PIECE_BYTES: usize = 4096;

/// Adds changes that write the file: a put of its first 4,096 bytes, and appends of the further
/// ones.
pub fn add_file(alloc: Global, out: &mut Changes, name: &Bytes, text: &[u8]) -> Result<(), NoMemory>
    ensures { OnOk result (AddsFile name.now text.now out.old out.new) }
{
    let (front, rest) = text.split_at(PIECE_BYTES.min(text.len()));
    out.push(Op::Put {
        name: name.copy()?,
        text: Bytes::from_slice(alloc, front)?,
    })?;
    add_appends(alloc, out, name, rest)
}

/// Adds appends of the text, 4,096 bytes at a time and the last of at most so many.
fn add_appends(alloc: Global, out: &mut Changes, name: &Bytes, text: &[u8]) -> Result<(), NoMemory>
    ensures { OnOk result (AddsAppends name.now text.now out.old out.new) }
{
    let mut rest = text;
    while !rest.is_empty() {
        let (front, back) = rest.split_at(PIECE_BYTES.min(rest.len()));
        out.push(Op::Append {
            name: name.copy()?,
            text: Bytes::from_slice(alloc, front)?,
        })?;
        rest = back;
    }
    Ok(())
}
