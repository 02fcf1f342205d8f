//! What the nodes of a run tell, merged: their journals into one, and their traces.
ghost use Rattle.std.specs.Prelude.{◌≡◌, ◌++◌, [], get_or, length, IfOk, OnOk};
ghost use Rattle.std.specs.List.{flat_map};
ghost use Rattle.qs_book_journal.specs.Merge.{IsMerged};
ghost use Rattle.qs_world_merge.specs.MergedByKey.{IsMergedBy};
ghost use Rattle.qs_world_merge.specs.StepMoves.{step_key};

use qs_base::{List, NoMemory};
use qs_book_journal::Entry;
use qs_node_step::Step;
use std::alloc::Global;

/// The entries of all journals in the order of their stamps; those of one stamp by node, and those of one stamp and node as they stand in the
/// journals. The only error is a refusal of memory.
pub fn merge_journals(alloc: Global, journals: List<List<Entry>>) -> Result<List<Entry>, NoMemory>
    ensures { IfOk result (λ merged. IsMerged journals merged) }
{
    let mut entries = joined(alloc, journals)?.into_vec();
    entries.sort_by_key(|entry| (entry.stamp, entry.node.0))?;
    Ok(List::from_vec(entries))
}

/// The steps of all traces, which stand by the numbers of their nodes, in the order of their stamps; those of one stamp by node, and those
/// of one stamp and node as they stand in the traces. The only error is a refusal of memory.
pub fn merge_steps(alloc: Global, traces: List<List<Step>>) -> Result<List<Step>, NoMemory>
    ensures { IfOk result (λ merged. IsMergedBy step_key (length traces) (λ n. get_or traces n []) merged) }
{
    let mut steps = joined(alloc, traces)?.into_vec();
    steps.sort_by_key(|step| (step.stamp, step.node.0))?;
    Ok(List::from_vec(steps))
}

/// The items of all lists, one list after the other.
fn joined<T: Drop>(alloc: Global, lists: List<List<T>>) -> Result<List<T>, NoMemory>
    ensures { IfOk result (λ all. all ≡ flat_map (λ items. items) lists) }
{
    let mut all = List::new(alloc);
    for list in lists.into_vec() {
        add_all(&mut all, list)?;
    }
    Ok(all)
}

/// Adds items, in order. Those of the first list are not moved.
fn add_all<T: Drop>(all: &mut List<T>, items: List<T>) -> Result<(), NoMemory>
    ensures { OnOk result (all.new ≡ all.old ++ items) }
{
    if all.is_empty() {
        *all = items;
        return Ok(());
    }
    for item in items.into_vec() {
        all.push(item)?;
    }
    Ok(())
}
