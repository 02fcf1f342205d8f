//! The journals of the nodes of a run, merged into one.
ghost use Rattle.std.specs.Prelude.{◌≡◌, ◌++◌, List, IfOk, OnOk};
ghost use Rattle.qs_book_journal.specs.declared.entry.Entry.{Entry};
ghost use Rattle.qs_book_journal.specs.Merge.{flat, IsMerged};

use crate::entry::Entry;
use qs_base::{Copied, List, NoMemory};
use std::alloc::Global;

/// The entries of all journals in the order of their stamps; those of one stamp by node, and those
/// of one stamp and node as they stand in the journals. The only error is a refusal of memory.
pub fn merge(alloc: Global, journals: &List<List<Entry>>) -> Result<List<Entry>, NoMemory>
    ensures { IfOk result (λ merged. IsMerged journals.now merged) }
{
    let mut entries = all_entries(alloc, journals)?.into_vec();
    entries.sort_by_key(|entry| (entry.stamp, entry.node.0))?;
    Ok(List::from_vec(entries))
}

/// The entries of all journals, one journal after the other.
fn all_entries(alloc: Global, journals: &List<List<Entry>>) -> Result<List<Entry>, NoMemory>
    ensures { IfOk result (λ all. all ≡ flat journals.now) }
{
    let mut all = List::new(alloc);
    for journal in journals.as_slice() {
        append_copies(&mut all, journal.as_slice())?;
    }
    Ok(all)
}

/// Adds equal entries in the same order.
fn append_copies(all: &mut List<Entry>, entries: &[Entry]) -> Result<(), NoMemory>
    ensures { OnOk result (all.new ≡ all.old ++ entries.now) }
{
    for entry in entries {
        all.push(entry.copy()?)?;
    }
    Ok(())
}

/// No two lists are the merge of the same journals.
pub fn one_merge()
    ensures { (journals : List (List Entry)) (one other : List Entry) → IsMerged journals one → IsMerged journals other → one ≡ other }
{}
