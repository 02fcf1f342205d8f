//! Changes committed to contents and notes.
ghost use Rattle.std.specs.Prelude.{◌≡◌, ◌+◌, ◌≤◌, ◌++◌, [], OnOk, OnErr, IfOk, vec_len};
ghost use Rattle.std.specs.List.{fold};
ghost use Rattle.std.specs.Vec.{vec_capacity};
ghost use Rattle.qs_ops.specs.Places.{IsInOrder};
ghost use Rattle.qs_ops.specs.Table.{apply_change, apply_note};
ghost use Rattle.qs_book_tables.specs.Sizes.{files_bytes};

use crate::staged::{apply_texts, stage};
use crate::views::notes_in_view;
use qs_base::{Bytes, List, NoMemory};
use qs_ops::{File, Op};
use std::alloc::Global;

/// The items as a vector with room for `count` more, and none left behind. After a refusal they
/// are as they were.
fn take_with_room<T: Drop>(
    alloc: Global,
    list: &mut List<T>,
    count: usize,
) -> Result<Vec<T>, NoMemory>
    ensures ok { IfOk result (λ taken. taken.items ≡ list.old) }
    ensures room { IfOk result (λ taken. vec_len taken + count ≤ vec_capacity taken) }
    ensures left { OnOk result (list.new ≡ []) }
    ensures err { OnErr result (list.new ≡ list.old) }
{
    let mut taken = std::mem::replace(list, List::new(alloc)).into_vec();
    match taken.reserve(count) {
        Ok(()) => Ok(taken),
        Err(_) => {
            *list = List::from_vec(taken);
            Err(NoMemory)
        }
    }
}

/// Adds notes at the end. After a refusal they are as they were.
fn append_notes(alloc: Global, notes: &mut List<Bytes>, more: List<Bytes>) -> Result<(), NoMemory>
    ensures ok { OnOk result (notes.new ≡ notes.old ++ more) }
    ensures err { OnErr result (notes.new ≡ notes.old) }
{
    let mut taken = std::mem::replace(notes, List::new(alloc)).into_vec();
    let added = taken.append(&mut more.into_vec());
    *notes = List::from_vec(taken);
    Ok(added?)
}

/// Commits changes in order, with the count of the bytes of all texts. It asks for a copy of their
/// texts, and for the room of as many new files as there are names; the only error is a refusal of
/// that memory, for which a count of bytes at its end stands too, and all is then as it was.
pub fn apply_changes(
    alloc: Global,
    contents: &mut List<File>,
    bytes: &mut u64,
    notes: &mut List<Bytes>,
    changes: &[Op],
) -> Result<(), NoMemory>
    requires order { IsInOrder contents.old }
    requires counted { bytes.old ≡ files_bytes contents.old }
    ensures contents { OnOk result (contents.new ≡ fold apply_change contents.old changes.now) }
    ensures notes { OnOk result (notes.new ≡ fold apply_note notes.old changes.now) }
    ensures kept_contents { OnErr result (contents.new ≡ contents.old) }
    ensures kept_notes { OnErr result (notes.new ≡ notes.old) }
    ensures order { IsInOrder contents.new }
    ensures counted { bytes.new ≡ files_bytes contents.new }
{
    let (texts, count) = stage(alloc, contents.as_slice(), *bytes, changes)?;
    let more = notes_in_view(alloc, &[], changes)?;
    let mut files = take_with_room(alloc, contents, texts.len())?;
    match append_notes(alloc, notes, more) {
        Ok(()) => {
            apply_texts(&mut files, texts);
            *contents = List::from_vec(files);
            *bytes = count;
            Ok(())
        }
        Err(refused) => {
            *contents = List::from_vec(files);
            Err(refused)
        }
    }
}
