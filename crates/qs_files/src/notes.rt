//! Notes among changes. No operation of files makes one, but a log may keep any change.
ghost use Rattle.std.specs.Prelude.{◌≡◌, ◌+◌, ◌≤◌, vec_len};
ghost use Rattle.std.specs.List.{fold};
ghost use Rattle.std.specs.Vec.{vec_capacity};
ghost use Rattle.qs_ops.specs.Table.{apply_note};
ghost use Rattle.qs_files.specs.Noted.{notes_in, count_notes};

use qs_base::Bytes;
use qs_ops::{Changes, Op};

/// How many of the changes are notes.
pub fn count_notes(changes: &[Op]) -> usize
    ensures { result ≡ count_notes changes.now }
{
    let mut count = 0;
    for change in changes {
        count += notes_in(change);
    }
    count
}

/// How many notes the change makes: one or none.
fn notes_in(change: &Op) -> usize
    ensures { result ≡ notes_in change.now }
{
    match change {
        Op::Note { .. } => 1,
        _ => 0,
    }
}

/// Adds the notes among the changes. It takes no memory.
pub fn add_notes(notes: &mut Vec<Bytes>, changes: Changes)
    requires room { vec_len notes.old + count_notes changes ≤ vec_capacity notes.old }
    ensures items { notes.new.items ≡ fold apply_note notes.old.items changes }
    ensures len { vec_len notes.new ≡ vec_len notes.old + count_notes changes }
    ensures capacity { vec_capacity notes.old ≤ vec_capacity notes.new }
{
    for change in changes.into_vec() {
        add_note(notes, change);
    }
}

/// Adds the note that the change makes, if it makes one. It takes no memory.
fn add_note(notes: &mut Vec<Bytes>, change: Op)
    requires room { vec_len notes.old + notes_in change ≤ vec_capacity notes.old }
    ensures items { notes.new.items ≡ apply_note notes.old.items change }
    ensures len { vec_len notes.new ≡ vec_len notes.old + notes_in change }
    ensures capacity { vec_capacity notes.old ≤ vec_capacity notes.new }
{
    if let Op::Note { text } = change {
        let _ = notes.push(text);
    }
}
