//! What a transaction sees: committed contents and notes with its own pending changes.
ghost use Rattle.std.specs.Prelude.{◌≡◌, ◌+◌, ◌<◌, ◌≤◌, IfOk, OnOk, vec_len};
ghost use Rattle.std.specs.List.{fold};
ghost use Rattle.std.specs.Vec.{vec_capacity};
ghost use Rattle.qs_ops.specs.Files.{file_text};
ghost use Rattle.qs_ops.specs.Places.{IsInOrder};
ghost use Rattle.qs_ops.specs.Table.{apply_change, apply_note};
ghost use Rattle.qs_book_tables.specs.Views.{names_of, hollow_text, hollow_change};

use crate::contents::{file_text, set_text};
use crate::edits::{changed_name, text_after};
use qs_base::{Bytes, Copied, List, NoMemory, copy_list};
use qs_ops::{File, Op};
use std::alloc::Global;

/// The text under a name once these changes are applied in order.
pub fn text_in_view(
    alloc: Global,
    files: &[File],
    changes: &[Op],
    name: &Bytes,
) -> Result<Option<Bytes>, NoMemory>
    requires { IsInOrder files.now }
    ensures { IfOk result (λ text. text ≡ file_text (fold apply_change files.now changes.now) name.now) }
{
    text_after(alloc, name, file_text(files, name.as_slice()), changes)
}

/// The notes once these changes are applied in order.
pub fn notes_in_view(
    alloc: Global,
    notes: &[Bytes],
    changes: &[Op],
) -> Result<List<Bytes>, NoMemory>
    ensures { IfOk result (λ list. list ≡ fold apply_note notes.now changes.now) }
{
    let mut view = copy_list(alloc, notes)?;
    for change in changes {
        add_note(&mut view, change)?;
    }
    Ok(view)
}

/// Adds the text of a note.
fn add_note(notes: &mut List<Bytes>, change: &Op) -> Result<(), NoMemory>
    ensures { OnOk result (notes.new ≡ apply_note notes.old change.now) }
{
    if let Op::Note { text } = change {
        notes.push(text.copy()?)?;
    }
    Ok(())
}

/// Files of these names, with no texts.
fn hollow_files(alloc: Global, files: &[File]) -> Result<Vec<File>, NoMemory>
    requires { IsInOrder files.now }
    ensures names { IfOk result (λ hollow. names_of hollow.items ≡ names_of files.now) }
    ensures order { IfOk result (λ hollow. IsInOrder hollow.items) }
{
    let mut hollow = Vec::new(alloc);
    for file in files {
        hollow.push(File {
            name: file.name.copy()?,
            content: Bytes::new(alloc),
        })?;
    }
    Ok(hollow)
}

/// The empty text; `None` of a change that removes its file. It takes no memory.
fn hollow_text(alloc: Global, change: &Op) -> Option<Bytes>
    ensures { result ≡ hollow_text change.now }
{
    match change {
        Op::Del { .. } => None,
        _ => Some(Bytes::new(alloc)),
    }
}

/// What a change makes of the names, with no texts.
fn change_names(alloc: Global, hollow: &mut Vec<File>, change: &Op) -> Result<(), NoMemory>
    requires room { vec_len hollow.old < vec_capacity hollow.old }
    requires order { IsInOrder hollow.old.items }
    ensures value { OnOk result (hollow.new.items ≡ hollow_change hollow.old.items change.now) }
    ensures order { IsInOrder hollow.new.items }
    ensures len { vec_len hollow.new ≤ vec_len hollow.old + 1 }
    ensures capacity { vec_capacity hollow.old ≤ vec_capacity hollow.new }
{
    if let Some(name) = changed_name(change) {
        set_text(hollow, name.copy()?, hollow_text(alloc, change));
    }
    Ok(())
}

/// The names of these files in order.
fn into_names(alloc: Global, files: Vec<File>) -> Result<List<Bytes>, NoMemory>
    ensures { IfOk result (λ list. list ≡ names_of files.items) }
{
    let mut names = List::new(alloc);
    for file in files {
        names.push(file.name)?;
    }
    Ok(names)
}

/// The names once these changes are applied in order. It copies no text.
pub fn names_in_view(alloc: Global, files: &[File], changes: &[Op]) -> Result<List<Bytes>, NoMemory>
    requires { IsInOrder files.now }
    ensures { IfOk result (λ list. list ≡ names_of (fold apply_change files.now changes.now)) }
{
    let mut hollow = hollow_files(alloc, files)?;
    hollow.reserve(changes.len())?;
    for change in changes {
        change_names(alloc, &mut hollow, change)?;
    }
    into_names(alloc, hollow)
}
