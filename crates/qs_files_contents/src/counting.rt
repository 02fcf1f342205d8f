//! How many bytes the texts have that a transaction sees: those of the committed ones, with the
//! texts that it is about to change counted as it sees them.
ghost use Rattle.std.specs.Prelude.{◌≡◌, ◌+◌, IfOk, IfSome, OnOk};
ghost use Rattle.std.specs.List.{fold};
ghost use Rattle.qs_files_contents.specs.Slots.{add_entry, slot_or_new, seen_at, text_at};
ghost use Rattle.qs_files_contents.specs.Texts.{text_bytes};
ghost use Rattle.qs_files_contents.specs.Sums.{committed_bytes, ChangesAlone, CountsOn, CountsAlso, IsReplacedSum};

use crate::prepared::changed_name;
use crate::under::Names;
use qs_base::{Bytes, Copied, NoMemory, Tid};
use qs_base_map::Map;
use qs_ops::Op;
use std::alloc::Global;

/// A sum over all texts while some are counted as a transaction sees them.
#[derive(Drop)]
pub struct Count {
    bytes: usize,
    /// The names of those.
    names: Map<Bytes, ()>,
}

/// How many bytes the transaction sees, of so many committed ones. A count past its end is a refusal
/// of memory too.
pub fn count_seen(
    alloc: Global,
    names: &Names,
    committed: usize,
    tid: Tid,
    changes: &[Op],
) -> Result<usize, NoMemory>
    requires committed { committed ≡ committed_bytes names.now }
    requires changes { ChangesAlone tid names.now changes.now }
    ensures { IfOk result (λ bytes. bytes ≡ fold (add_entry tid) 0 names.now) }
{
    let mut count = Count {
        bytes: committed,
        names: Map::new(alloc),
    };
    for change in changes {
        count_change(names, &mut count, tid, change)?;
    }
    Ok(count.bytes)
}

/// Counts the text that the change is to as the transaction sees it.
fn count_change(names: &Names, count: &mut Count, tid: Tid, change: &Op) -> Result<(), NoMemory>
    ensures { OnOk result (CountsOn tid names.now change.now count.old count.new) }
{
    match changed_name(change) {
        Some(name) => count_name(names, count, tid, name),
        None => Ok(()),
    }
}

/// The same for the text under the name, once.
fn count_name(names: &Names, count: &mut Count, tid: Tid, name: &Bytes) -> Result<(), NoMemory>
    ensures { OnOk result (CountsAlso tid names.now name.now count.old count.new) }
{
    if count.names.has(name) {
        return Ok(());
    }
    let bytes = with_seen(names, count.bytes, tid, name).ok_or(NoMemory)?;
    count.names.put(name.copy()?, ())?;
    count.bytes = bytes;
    Ok(())
}

/// The sum with the text under the name as the transaction sees it in place of the committed one.
fn with_seen(names: &Names, sum: usize, tid: Tid, name: &Bytes) -> Option<usize>
    ensures { IfSome result (λ n. n + text_bytes (text_at (slot_or_new names.now name.now)) ≡ sum + text_bytes (seen_at (slot_or_new names.now name.now) tid)) }
{
    match names.get(name) {
        Some(slot) => replaced(Some(sum), slot.committed_length(), slot.length(tid)),
        None => Some(sum),
    }
}

/// A sum with one count in place of another; `None` where one is not told, or the sum does not fit.
pub fn replaced(sum: Option<usize>, before: Option<usize>, after: Option<usize>) -> Option<usize>
    ensures { IfSome result (IsReplacedSum sum before after) }
{
    sum?.checked_sub(before?)?.checked_add(after?)
}
