//! What changes do to the text under one name.
ghost use Rattle.std.specs.Prelude.{◌≡◌, ◌++◌, [], IfOk, unwrap_or};
ghost use Rattle.std.specs.List.{fold};
ghost use Rattle.std.specs.Option.{option_copied};
ghost use Rattle.qs_book_tables.specs.Edits.{changed_name, text_by, changed_at};

use qs_base::{Bytes, Copied, NoMemory};
use qs_ops::Op;
use std::alloc::Global;

/// The name that a change is to; `None` for an operation that changes nothing under a name.
pub fn changed_name(change: &Op) -> Option<&Bytes>
    ensures { option_copied result ≡ changed_name change.now }
{
    match change {
        Op::Put { name, .. }
        | Op::Append { name, .. }
        | Op::Del { name }
        | Op::Bind { name, .. }
        | Op::Window { name, .. }
        | Op::Keep { name, .. } => Some(name),
        _ => None,
    }
}

/// A text with another added at its end.
pub fn joined(alloc: Global, before: Option<Bytes>, text: &Bytes) -> Result<Bytes, NoMemory>
    ensures { IfOk result (λ joined. joined ≡ unwrap_or before [] ++ text.now) }
{
    let mut joined = before.unwrap_or(Bytes::new(alloc));
    joined.append(text.as_slice())?;
    Ok(joined)
}

/// What a change makes of the text under its name.
pub fn text_by(alloc: Global, before: Option<Bytes>, change: &Op) -> Result<Option<Bytes>, NoMemory>
    ensures { IfOk result (λ text. text ≡ text_by before change.now) }
{
    match change {
        Op::Put { text, .. }
        | Op::Bind { text, .. }
        | Op::Window { text, .. }
        | Op::Keep { text, .. } => Ok(Some(text.copy()?)),
        Op::Append { text, .. } => Ok(Some(joined(alloc, before, text)?)),
        Op::Del { .. } => Ok(None),
        _ => Ok(before),
    }
}

/// A copy of a text, where there is one.
pub fn copied(text: Option<&Bytes>) -> Result<Option<Bytes>, NoMemory>
    ensures { IfOk result (λ copy. copy ≡ option_copied text.entry) }
{
    match text {
        Some(text) => Ok(Some(text.copy()?)),
        None => Ok(None),
    }
}

/// What a change makes of the text under a name.
fn changed_at(
    alloc: Global,
    name: &Bytes,
    before: Option<Bytes>,
    change: &Op,
) -> Result<Option<Bytes>, NoMemory>
    ensures { IfOk result (λ text. text ≡ changed_at name.now before change.now) }
{
    match changed_name(change) {
        Some(n) if n == name => text_by(alloc, before, change),
        _ => Ok(before),
    }
}

/// The text under a name once these changes are applied in order.
pub fn text_after(
    alloc: Global,
    name: &Bytes,
    before: Option<&Bytes>,
    changes: &[Op],
) -> Result<Option<Bytes>, NoMemory>
    ensures { IfOk result (λ text. text ≡ fold (changed_at name.now) (option_copied before.entry) changes.now) }
{
    let mut text = copied(before)?;
    for change in changes {
        text = changed_at(alloc, name, text, change)?;
    }
    Ok(text)
}
