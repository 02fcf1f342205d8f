//! The notes that changes make.
ghost use Rattle.std.specs.Prelude.{◌≡◌, ◌++◌, [], OnOk, IfOk, map};
ghost use Rattle.std.specs.List.{fold};
ghost use Rattle.qs_ops.specs.Server.{note_of};
ghost use Rattle.qs_ops.specs.Table.{apply_note};

use qs_base::{Bytes, Copied, List, NoMemory};
use qs_ops::{Changes, Op};
use std::alloc::Global;

/// Adds the notes that these changes make.
pub fn add_notes(notes: &mut List<Bytes>, changes: &[Op]) -> Result<(), NoMemory>
    ensures { OnOk result (notes.new ≡ fold apply_note notes.old changes.now) }
{
    for change in changes {
        add_note(notes, change)?;
    }
    Ok(())
}

/// Adds the note that the change makes, if it makes one.
fn add_note(notes: &mut List<Bytes>, change: &Op) -> Result<(), NoMemory>
    ensures { OnOk result (notes.new ≡ apply_note notes.old change.now) }
{
    if let Op::Note { text } = change {
        notes.push(text.copy()?)?;
    }
    Ok(())
}

/// Changes that make these notes, in order.
pub fn changes_of(alloc: Global, notes: &[Bytes]) -> Result<Changes, NoMemory>
    ensures { IfOk result (λ changes. changes ≡ map note_of notes.now) }
{
    let mut changes = List::new(alloc);
    for text in notes {
        let text = text.copy()?;
        changes.push(Op::Note { text })?;
    }
    Ok(changes)
}
