//! The replies to operations that nothing refuses.
ghost use Rattle.std.specs.Prelude.{◌≡◌, ◌++◌, Bool, IfOk, Option, Some, None, unwrap_or};
ghost use Rattle.std.specs.List.{fold};
ghost use Rattle.qs_ops.specs.Files.{text_reply};
ghost use Rattle.qs_ops.specs.Places.{IsInOrder};
ghost use Rattle.qs_ops.specs.Table.{apply_change, apply_note, size_reply, del_reply};
ghost use Rattle.qs_book_tables.specs.Views.{is_served, viewed_reply};

use crate::edits::joined;
use crate::views::{names_in_view, notes_in_view, text_in_view};
use qs_base::{Bytes, List, NoMemory};
use qs_ops::{File, Op, Reply};
use std::alloc::Global;

/// Whether such a server answers the operation.
pub fn is_served(op: &Op) -> bool
    ensures { result ≡ is_served op.now }
{
    match op {
        Op::Put { .. } | Op::Append { .. } | Op::Del { .. } | Op::Get { .. } | Op::Listing => true,
        Op::Note { .. } | Op::Notes | Op::Bind { .. } | Op::Find { .. } => true,
        Op::Window { .. } | Op::Title { .. } | Op::Keep { .. } | Op::Fetch { .. } => true,
        Op::Timer { .. } | Op::Left { .. } | Op::Lend { .. } | Op::Extra { .. } => false,
    }
}

/// The reply to an operation that leaves a file of this text.
fn size_reply(text: &Bytes) -> Reply
    ensures { result ≡ size_reply text.now }
{
    if text.len() > 65536 {
        Reply::TooLong
    } else {
        Reply::Done
    }
}

/// The reply to the removal of a file of this text.
fn del_reply(text: Option<Bytes>) -> Reply
    ensures { result ≡ del_reply text }
{
    match text {
        Some(_) => Reply::Done,
        None => Reply::Absent,
    }
}

/// The reply that tells this text.
fn text_reply(text: Option<Bytes>) -> Reply
    ensures { result ≡ text_reply text }
{
    match text {
        Some(text) => Reply::Value { text },
        None => Reply::Absent,
    }
}

/// The reply to an operation that nothing refuses; `Ok(None)` exactly where it is no operation of
/// such a server. The only error is a refusal of memory.
pub fn free_reply(
    alloc: Global,
    files: &[File],
    notes: &[Bytes],
    changes: &[Op],
    op: &Op,
) -> Result<Option<Reply>, NoMemory>
    requires { IsInOrder files.now }
    ensures { IfOk result (λ reply. reply ≡ viewed_reply (fold apply_change files.now changes.now) (fold apply_note notes.now changes.now) op.now) }
{
    let reply = match op {
        Op::Put { text, .. } => size_reply(text),
        Op::Append { name, text } => {
            let before = text_in_view(alloc, files, changes, name)?;
            size_reply(&joined(alloc, before, text)?)
        }
        Op::Del { name } => del_reply(text_in_view(alloc, files, changes, name)?),
        Op::Get { name } | Op::Find { name } | Op::Title { name } | Op::Fetch { name } => {
            text_reply(text_in_view(alloc, files, changes, name)?)
        }
        Op::Note { .. } | Op::Bind { .. } | Op::Window { .. } | Op::Keep { .. } => Reply::Done,
        Op::Listing => Reply::Names {
            list: names_in_view(alloc, files, changes)?,
        },
        Op::Notes => Reply::Notes {
            list: notes_in_view(alloc, notes, changes)?,
        },
        Op::Timer { .. } | Op::Left { .. } | Op::Lend { .. } | Op::Extra { .. } => return Ok(None),
    };
    Ok(Some(reply))
}
