//! Changes with all the memory that they take.
ghost use Rattle.std.specs.Prelude.{◌≡◌, IfOk, OnOk};
ghost use Rattle.std.specs.Option.{option_copied};
ghost use Rattle.qs_files_contents.specs.Edits.{prepared_from, prepared_by, add_prepared, changed_name};

use crate::edit::Change;
use crate::text::Text;
use qs_base::{Bytes, Copied, NoMemory};
use qs_ops::Op;
use std::alloc::Global;

/// A change to the text under a name.
#[derive(Drop)]
pub struct Prepared {
    pub name: Bytes,
    pub change: Change,
}

/// The name that a change is to; `None` of one that is to no name.
pub fn changed_name(change: &Op) -> Option<&Bytes>
    ensures { option_copied result ≡ changed_name change.now }
{
    match change {
        Op::Put { name, .. }
        | Op::Append { name, .. }
        | Op::Del { name }
        | Op::Bind { name, .. }
        | Op::Window { name, .. }
        | Op::Keep { name, .. } => Some(name),
        _ => None,
    }
}

/// The changes to names among these, in order.
pub fn prepare(alloc: Global, changes: &[Op]) -> Result<Vec<Prepared>, NoMemory>
    ensures { IfOk result (λ prepared. prepared.items ≡ prepared_by changes.now) }
{
    let mut prepared = Vec::new(alloc);
    for change in changes {
        add_prepared(alloc, &mut prepared, change)?;
    }
    Ok(prepared)
}

/// Adds the change, where it is to a name.
fn add_prepared(alloc: Global, prepared: &mut Vec<Prepared>, change: &Op) -> Result<(), NoMemory>
    ensures { OnOk result (prepared.new.items ≡ add_prepared prepared.old.items change.now) }
{
    if let Some(change) = prepared_from(alloc, change)? {
        prepared.push(change)?;
    }
    Ok(())
}

/// The change, where it is to a name.
fn prepared_from(alloc: Global, change: &Op) -> Result<Option<Prepared>, NoMemory>
    ensures { IfOk result (λ prepared. prepared ≡ prepared_from change.now) }
{
    let (name, change) = match change {
        Op::Put { name, text }
        | Op::Bind { name, text }
        | Op::Window { name, text }
        | Op::Keep { name, text } => {
            let text = Text::of(alloc, text.copy()?)?;
            (name, Change::Put { text })
        }
        Op::Append { name, text } => {
            let text = Text::of(alloc, text.copy()?)?;
            (name, Change::Append { text })
        }
        Op::Del { name } => (name, Change::Del),
        _ => return Ok(None),
    };
    Ok(Some(Prepared {
        name: name.copy()?,
        change,
    }))
}
