//! What a script has planned for each link of a run.
ghost use Rattle.std.specs.Prelude.{◌≡◌, IfOk, OnOk, option_to_list};
ghost use Rattle.std.specs.List.{list_any};
ghost use Rattle.qs_link.specs.Plan.{IsPlan, holds_none, is_of, packet_of};
ghost use Rattle.qs_world_sites.specs.Seats.{add_fault, fault_on, is_between, plan_between};

use qs_base::{List, NoMemory, NodeNo};
use qs_book_script::{FaultLine, Planned};
use qs_link::{LinkFault, LinkPlan};
use std::alloc::Global;

/// What the lines have planned for the link from one node to another, in their order. The only error is a refusal of memory.
pub(crate) fn plan_between(
    alloc: Global,
    lines: &[FaultLine],
    from: usize,
    to: usize,
) -> Result<LinkPlan, NoMemory>
    ensures lines { IfOk result (λ plan. plan ≡ plan_between from to lines.now) }
    ensures plan { IfOk result IsPlan }
{
    let mut plan = List::new(alloc);
    for line in lines {
        if let Some(fault) = fault_on(from, to, &line.fault) {
            add_fault(&mut plan, fault)?;
        }
    }
    Ok(plan)
}

/// The fault that is planned, if it is one of that link.
fn fault_on(n: usize, m: usize, planned: &Planned) -> Option<LinkFault>
    ensures { option_to_list result ≡ fault_on n m planned.now }
{
    let (from, to, fault) = match *planned {
        Planned::Drop { from, to, packet } => (from, to, LinkFault::Drop { packet }),
        Planned::Again { from, to, packet } => (from, to, LinkFault::Again { packet }),
        Planned::Hold {
            from,
            to,
            packet,
            count,
        } => (from, to, LinkFault::Hold { packet, count }),
        _ => return None,
    };
    if is_between(n, m, from, to) {
        Some(fault)
    } else {
        None
    }
}

fn is_between(n: usize, m: usize, from: NodeNo, to: NodeNo) -> bool
    ensures { result ≡ is_between n m from.0 to.0 }
{
    usize::from(from.0) == n && usize::from(to.0) == m
}

/// The fault is added if its packet has none, unless it holds the packet back for no other.
fn add_fault(plan: &mut LinkPlan, fault: LinkFault) -> Result<(), NoMemory>
    ensures { OnOk result (plan.new ≡ add_fault plan.old fault) }
{
    if holds_none(fault) || has_fault(plan.as_slice(), packet_of(fault)) {
        return Ok(());
    }
    plan.push(fault)
}

/// Whether the fault holds its packet back for no other.
fn holds_none(fault: LinkFault) -> bool
    ensures { result ≡ holds_none fault }
{
    matches!(fault, LinkFault::Hold { count: 0, .. })
}

fn has_fault(plan: &[LinkFault], packet: u64) -> bool
    ensures { result ≡ list_any (is_of packet) plan.now }
{
    plan.iter().any(|fault| packet_of(*fault) == packet)
}

/// The packet that the fault is of.
fn packet_of(fault: LinkFault) -> u64
    ensures { result ≡ packet_of fault }
{
    match fault {
        LinkFault::Drop { packet } | LinkFault::Again { packet } | LinkFault::Hold { packet, .. } =>
            packet,
    }
}
