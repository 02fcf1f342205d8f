//! Changes gathered name by name, so that committing them takes no memory but the room for files.
ghost use Rattle.std.specs.Prelude.{◌≡◌, ◌+◌, ◌≤◌, [], Some, IfOk, OnOk, vec_len};
ghost use Rattle.std.specs.List.{fold};
ghost use Rattle.std.specs.Vec.{vec_capacity};
ghost use Rattle.std.specs.BTreeMap.{btree_map_len, IsOrdered};
ghost use Rattle.qs_base.specs.Order.{bytes_cmp};
ghost use Rattle.qs_ops.specs.Files.{file_text};
ghost use Rattle.qs_ops.specs.Places.{IsInOrder};
ghost use Rattle.qs_ops.specs.Table.{apply_change};
ghost use Rattle.std.specs.Option.{option_copied};
ghost use Rattle.qs_book_tables.specs.Edits.{changed_name, text_by};
ghost use Rattle.qs_book_tables.specs.Sizes.{files_bytes, text_bytes, CountsChange};
ghost use Rattle.qs_book_tables.specs.Staged.{text_staged, IsWithoutName, IsStaged, AreStaged, set_entry};

use crate::contents::{file_text, set_text};
use crate::edits::{changed_name, copied, text_by};
use qs_base::{Bytes, Copied, NoMemory};
use qs_ops::{File, Op};
use std::alloc::Global;
use std::collections::BTreeMap;

/// The text that changes leave under each name that they are to; `None` where nothing is left.
pub type Texts = BTreeMap<Bytes, Option<Bytes>>;

/// What a change finds of the committed text under its name; only one that appends looks at it.
fn committed_text(files: &[File], name: &Bytes, change: &Op) -> Result<Option<Bytes>, NoMemory>
    requires order { IsInOrder files.now }
    requires name { changed_name change.now ≡ Some name.now }
    ensures { IfOk result (λ text. text_by text change.now ≡ text_by (file_text files.now name.now) change.now) }
{
    match change {
        Op::Append { .. } => copied(file_text(files, name.as_slice())),
        _ => Ok(None),
    }
}

/// Takes out what a change finds under its name: what is gathered, else the committed text.
fn taken_text(
    files: &[File],
    texts: &mut Texts,
    name: &Bytes,
    change: &Op,
) -> Result<Option<Bytes>, NoMemory>
    requires order { IsInOrder files.now }
    requires name { changed_name change.now ≡ Some name.now }
    ensures value { IfOk result (λ text. text_by text change.now ≡ text_by (text_staged texts.old.entries files.now name.now) change.now) }
    ensures others { IsWithoutName name.now texts.old.entries texts.new.entries }
{
    match texts.remove(name) {
        Some(text) => Ok(text),
        None => committed_text(files, name, change),
    }
}

/// Gathers one change more.
fn stage_change(
    alloc: Global,
    files: &[File],
    texts: &mut Texts,
    name: &Bytes,
    change: &Op,
) -> Result<u64, NoMemory>
    requires order { IsInOrder files.now }
    requires name { changed_name change.now ≡ Some name.now }
    ensures staged { OnOk result (IsStaged files.now change.now texts.old.entries texts.new.entries) }
    ensures length { IfOk result (λ length. length ≡ text_bytes (text_by (text_staged texts.old.entries files.now name.now) change.now)) }
{
    let before = taken_text(files, texts, name, change)?;
    let after = text_by(alloc, before, change)?;
    let length = text_length(after.as_ref());
    texts.insert(name.copy()?, after)?;
    Ok(length)
}

/// How many bytes a text has, or nothing.
fn text_length(text: Option<&Bytes>) -> u64
    ensures { result ≡ text_bytes (option_copied text.entry) }
{
    match text {
        Some(text) => text.len() as u64,
        None => 0,
    }
}

/// How many bytes stand under a name: in what is gathered, else in the committed text.
fn staged_length(files: &[File], texts: &Texts, name: &Bytes) -> u64
    requires { IsInOrder files.now }
    ensures { result ≡ text_bytes (text_staged texts.now.entries files.now name.now) }
{
    match texts.get(name) {
        Some(text) => text_length(text.as_ref()),
        None => text_length(file_text(files, name.as_slice())),
    }
}

/// Gathers one change more, and counts what it makes of so many bytes of all texts. A count at its
/// end is want of memory.
fn stage_counted(
    alloc: Global,
    files: &[File],
    texts: &mut Texts,
    bytes: u64,
    change: &Op,
) -> Result<u64, NoMemory>
    requires { IsInOrder files.now }
    ensures staged { OnOk result (IsStaged files.now change.now texts.old.entries texts.new.entries) }
    ensures counted { IfOk result (λ after. CountsChange (text_staged texts.old.entries files.now) change.now bytes after) }
{
    let Some(name) = changed_name(change) else {
        return Ok(bytes);
    };
    let before = staged_length(files, texts, name);
    let after = stage_change(alloc, files, texts, name, change)?;
    let sum = bytes.checked_add(after).ok_or(NoMemory)?;
    sum.checked_sub(before).ok_or(NoMemory)
}

/// Gathers changes in order, and counts the bytes of all texts with them; the files alone have so
/// many bytes.
pub fn stage(
    alloc: Global,
    files: &[File],
    bytes: u64,
    changes: &[Op],
) -> Result<(Texts, u64), NoMemory>
    requires order { IsInOrder files.now }
    requires counted { bytes ≡ files_bytes files.now }
    ensures staged { IfOk result (λ staged. AreStaged files.now changes.now staged.0.entries) }
    ensures counted { IfOk result (λ staged. staged.1 ≡ files_bytes (fold apply_change files.now changes.now)) }
{
    let mut texts = BTreeMap::new(alloc);
    let mut count = bytes;
    for change in changes {
        count = stage_counted(alloc, files, &mut texts, count, change)?;
    }
    Ok((texts, count))
}

/// Commits gathered texts.
pub fn apply_texts(files: &mut Vec<File>, texts: Texts)
    requires room { vec_len files.old + btree_map_len texts ≤ vec_capacity files.old }
    requires order { IsInOrder files.old.items }
    ensures value { files.new.items ≡ fold set_entry files.old.items texts.entries }
    ensures order { IsInOrder files.new.items }
    ensures ordered { IsOrdered bytes_cmp texts }
{
    for (name, text) in texts {
        set_text(files, name, text);
    }
}
