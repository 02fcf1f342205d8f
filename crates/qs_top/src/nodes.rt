//! A script is run on many nodes over their disks, the journal of them all is judged, and the output made.
ghost use Rattle.std.specs.Prelude.{◌≡◌, ◌≤◌, ◌++◌, ◌∷◌, [], List, length, map, IfOk, OnOk};
ghost use Rattle.qs_book_journal.specs.declared.entry.Entry.{Entry};
ghost use Rattle.qs_node_step.specs.declared.trace.Step.{Step};
ghost use Rattle.qs_top.specs.Disks.{OfThese};
ghost use Rattle.qs_top.specs.Inner.OverNodes.{IsGatheredOf, IsMadeOfRun, IsOverNodes};
ghost use Rattle.qs_world_left.specs.Left.{AreReadAsLeft};
ghost use Rattle.qs_top.specs.Ran.{journal_in, opened_in, trace_in};

use crate::whole::{RunMade, made_from, not_opened, nothing_made};
use qs_base::{List, NoMemory};
use qs_book::Opened;
use qs_book_journal::Entry;
use qs_disk::Disk;
use qs_node_step::Step;
use qs_text::{Script, Shown, Status};
use qs_world_nodes::{merge_journals, merge_steps};
use qs_world_serial::{SerialRun, SiteTold, run_serial};
use std::alloc::Global;

/// What all nodes tell.
#[derive(Drop)]
pub struct Gathered {
    /// What their logs held, by the numbers of the nodes.
    pub opened: List<Opened>,
    /// Their entries, by stamp and node.
    pub journal: List<Entry>,
    /// Their steps, by stamp and node.
    pub trace: List<Step>,
}

/// What each node tells, by the numbers of the nodes.
#[derive(Drop)]
struct Apart {
    opened: List<Opened>,
    journals: List<List<Entry>>,
    traces: List<List<Step>>,
}

/// Runs a script on so many nodes over the logs of the first disks, in the order that the seed draws; this is to be shown of it. Each disk
/// is in its place again.
pub fn run_over_nodes<D: Disk>(
    alloc: Global,
    disks: &mut Vec<D>,
    nodes: u8,
    script: &Script,
    seed: u64,
    shown: Shown,
) -> RunMade
    requires some { 1 ≤ nodes }
    requires few { nodes ≤ 8 }
    requires disks { nodes ≤ length disks.old.items }
    ensures over { OfThese nodes (λ firsts afters. IsOverNodes D.told D.state D.fault_count D.byte_count seed script.now shown result firsts afters) disks.old.items disks.new.items }
{
    let (firsts, _others) = disks.as_mut_slice().split_at_mut(usize::from(nodes));
    // (the sizes tell that the contents are images)
    look_at(firsts);
    let ran = run_serial(alloc, script, seed, firsts);
    made_of_run(alloc, script, shown, ran)
}

/// What a read gives of each disk is one of its images.
fn look_at<D: Disk>(disks: &[D])
    ensures { D.told → AreReadAsLeft (map D.state disks.now) }
{
    if let Some((disk, rest)) = disks.split_first() {
        disk.size();
        look_at(rest);
    }
}

/// What came of a run.
fn made_of_run(alloc: Global, script: &Script, shown: Shown, ran: SerialRun) -> RunMade
    ensures { IsMadeOfRun script.now shown ran result }
{
    match ran {
        SerialRun::NotOpened { node, why } => nothing_made(alloc, not_opened(node, why)),
        SerialRun::NoMemory => nothing_made(alloc, Status::NoMemory),
        SerialRun::Ended { ending, tells } => match gather(alloc, tells) {
            Ok(all) => {
                let Gathered {
                    opened,
                    journal,
                    trace,
                } = all;
                made_from(
                    alloc,
                    script,
                    shown,
                    ending,
                    opened.as_slice(),
                    journal,
                    trace,
                )
            }
            Err(NoMemory) => nothing_made(alloc, Status::NoMemory),
        },
    }
}

/// What all nodes tell, merged. The only error is a refusal of memory.
fn gather(alloc: Global, tells: Result<List<SiteTold>, NoMemory>) -> Result<Gathered, NoMemory>
    ensures { IfOk result (λ all. IsGatheredOf tells all) }
{
    let Apart {
        opened,
        journals,
        traces,
    } = taken_apart(alloc, tells?)?;
    Ok(Gathered {
        opened,
        journal: merge_journals(alloc, journals)?,
        trace: merge_steps(alloc, traces)?,
    })
}

/// What each node tells, by kind.
fn taken_apart(alloc: Global, tells: List<SiteTold>) -> Result<Apart, NoMemory>
    ensures opened { IfOk result (λ all. all.opened ≡ map opened_in tells) }
    ensures journals { IfOk result (λ all. all.journals ≡ map journal_in tells) }
    ensures traces { IfOk result (λ all. all.traces ≡ map trace_in tells) }
{
    let mut all = Apart {
        opened: List::new(alloc),
        journals: List::new(alloc),
        traces: List::new(alloc),
    };
    for told in tells.into_vec() {
        add(&mut all, told)?;
    }
    Ok(all)
}

/// With one node more.
fn add(all: &mut Apart, told: SiteTold) -> Result<(), NoMemory>
    ensures opened { OnOk result (all.new.opened ≡ all.old.opened ++ told.opened ∷ []) }
    ensures journals { OnOk result (all.new.journals ≡ all.old.journals ++ told.journal ∷ []) }
    ensures traces { OnOk result (all.new.traces ≡ all.old.traces ++ told.trace ∷ []) }
{
    let SiteTold {
        opened,
        journal,
        trace,
    } = told;
    all.opened.push(opened)?;
    all.journals.push(journal)?;
    all.traces.push(trace)?;
    Ok(())
}
