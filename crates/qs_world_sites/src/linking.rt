//! The links between the nodes of a run, before anything is on them.
ghost use Rattle.std.specs.Prelude.{◌≡◌, ◌≢◌, ◌≤◌, ℕ, Some, IfOk, OnOk, length, slice_get};
ghost use Rattle.qs_cell_peers.specs.Links.{LinksValue, into_of, out_of};
ghost use Rattle.qs_link.specs.Plan.{IsPlan};
ghost use Rattle.qs_world_rounds.specs.Seats.{AreLinksOf};
ghost use Rattle.qs_world_sites.specs.Linking.{AddsLink, AreLinksOver, AreWide, Joins, JoinsBelow};
ghost use Rattle.qs_world_sites.specs.Seats.{IsNewLink, plan_between};

use crate::planned::plan_between;
use qs_base::{List, NoMemory, NodeNo};
use qs_book_script::FaultLine;
use qs_cell_peers::Links;
use qs_link::{Incoming, LinkPlan, Outgoing, link};
use std::alloc::Global;

/// The ends of a node's links, by the numbers of the other nodes.
#[derive(Drop)]
struct Ends {
    out: List<Outgoing>,
    into: List<Incoming>,
}

/// The links between the nodes of a run of so many, by the numbers of their nodes, with nothing on them and what the lines have
/// planned for each. The only error is a refusal of memory.
pub fn new_links(alloc: Global, lines: &[FaultLine], nodes: u8) -> Result<Vec<Links>, NoMemory>
    requires { nodes ≤ 8 }
    ensures count { IfOk result (λ all. length all.items ≡ nodes) }
    ensures own { IfOk result (λ all. (n : ℕ) (links : LinksValue) → slice_get all.items n ≡ Some links → AreLinksOf nodes (record { 0 = n }) links) }
    ensures links { IfOk result (λ all. (n m : ℕ) (a b : LinksValue) → slice_get all.items n ≡ Some a → slice_get all.items m ≡ Some b → n ≢ m → IsNewLink (plan_between n m lines.now) (out_of a m) (into_of b n)) }
{
    let mut all = Vec::new(alloc);
    for _node in 0..nodes {
        let new = join_others(alloc, lines, all.as_mut_slice())?;
        all.push(new)?;
    }
    as_links(alloc, all)
}

/// The ends of one node more, with its links with each of the others.
fn join_others(alloc: Global, lines: &[FaultLine], others: &mut [Ends]) -> Result<Ends, NoMemory>
    requires { AreWide others.old }
    ensures { IfOk result (λ new. JoinsBelow lines.now (length others.old) others.old others.new new) }
{
    let mut new = Ends {
        out: List::new(alloc),
        into: List::new(alloc),
    };
    let node = others.len();
    for other in 0..node {
        join(alloc, lines, other, node, &mut others[other], &mut new)?;
    }
    Ok(new)
}

/// The links between two nodes, in both directions.
fn join(
    alloc: Global,
    lines: &[FaultLine],
    n: usize,
    m: usize,
    one: &mut Ends,
    other: &mut Ends,
) -> Result<(), NoMemory>
    ensures { OnOk result (Joins lines.now n m one.old one.new other.old other.new) }
{
    let plan = plan_between(alloc, lines, n, m)?;
    add_link(alloc, plan, &mut one.out, &mut other.into)?;
    let plan = plan_between(alloc, lines, m, n)?;
    add_link(alloc, plan, &mut other.out, &mut one.into)
}

/// One link more, whose ends stand behind the others.
fn add_link(
    alloc: Global,
    plan: LinkPlan,
    out: &mut List<Outgoing>,
    into: &mut List<Incoming>,
) -> Result<(), NoMemory>
    requires { IsPlan plan }
    ensures { OnOk result (AddsLink plan out.old out.new into.old into.new) }
{
    let (from, to) = link(alloc, plan)?;
    out.push(from)?;
    into.push(to)
}

/// These ends as links, by the numbers of their nodes.
fn as_links(alloc: Global, all: Vec<Ends>) -> Result<Vec<Links>, NoMemory>
    requires few { length all.items ≤ 8 }
    requires wide { AreWide all.items }
    ensures { IfOk result (λ links. AreLinksOver (length all.items) all.items links.items) }
{
    let mut links = Vec::new(alloc);
    let mut me = 0;
    for ends in all {
        links.push(Links::new(NodeNo(me), ends.out, ends.into))?;
        me += 1;
    }
    Ok(links)
}
