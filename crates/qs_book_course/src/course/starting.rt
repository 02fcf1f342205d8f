//! The course as a run begins.
ghost use Rattle.std.specs.Prelude.{◌≡◌, fold, replicate, OnOk, IfOk};
ghost use Rattle.qs_book_machine.specs.Opening.{opening};
ghost use Rattle.qs_book_conformance.specs.Begun.{no_client, no_node, seated, commanded, limited, with_line, grounded, deed_of, mark_of, marked, clients_of, nodes_of, marks_of, at_start};

use super::Course;
use crate::client::ClientCourse;
use crate::nodes::DEFAULT_QUOTA;
use qs_base::{Copied, NoMemory, NodeNo};
use qs_book::{Book, Opened};
use qs_book_conformance::{Deed, Mark, NodeCourse};
use qs_book_journal::{Point, PointKind, ScriptLine};
use qs_book_script::{FaultLine, Planned, Quota, Script, Seat};
use std::alloc::Global;
use std::collections::BTreeMap;

/// Nodes and clients have numbers below this.
const NUMBER_LIMIT: usize = 256;

const NO_NODE: NodeCourse = NodeCourse {
    quota: DEFAULT_QUOTA,
    lines: 0,
    owing: 0,
    stamp: 0,
    is_after: false,
    faults: 0,
};

// ---- clients

fn no_clients(alloc: Global) -> Result<Vec<ClientCourse>, NoMemory>
    ensures { IfOk result (λ clients. clients.items ≡ replicate 256 no_client) }
{
    let mut clients = Vec::new(alloc);
    for _turn in 0..NUMBER_LIMIT {
        clients.push(ClientCourse::new(alloc))?;
    }
    Ok(clients)
}

fn sit(clients: &mut Vec<ClientCourse>, seat: &Seat)
    ensures { clients.new.items ≡ seated clients.old.items seat.now }
{
    let place = usize::from(seat.client.0);
    if place < clients.len() {
        clients[place].sit(seat.node);
    }
}

#[tactic(auto, using(std::proofs::lemmas::List::Sums::fold_more))]
fn sit_all(clients: &mut Vec<ClientCourse>, seats: &[Seat])
    ensures { clients.new.items ≡ fold seated clients.old.items seats.now }
{
    for seat in seats {
        sit(clients, seat);
    }
}

fn command(clients: &mut Vec<ClientCourse>, line: &ScriptLine) -> Result<(), NoMemory>
    ensures { OnOk result (clients.new.items ≡ commanded clients.old.items line.now) }
{
    let place = usize::from(line.client.0);
    if place < clients.len() {
        clients[place].command(line.copy()?)?;
    }
    Ok(())
}

#[tactic(auto, using(std::proofs::lemmas::List::Sums::fold_more))]
fn command_all(clients: &mut Vec<ClientCourse>, lines: &[ScriptLine]) -> Result<(), NoMemory>
    ensures { OnOk result (clients.new.items ≡ fold commanded clients.old.items lines.now) }
{
    for line in lines {
        command(clients, line)?;
    }
    Ok(())
}

fn clients_of(alloc: Global, script: &Script) -> Result<Vec<ClientCourse>, NoMemory>
    ensures { IfOk result (λ clients. clients.items ≡ clients_of script.now) }
{
    let mut clients = no_clients(alloc)?;
    sit_all(&mut clients, script.seats.as_slice());
    command_all(&mut clients, script.lines.as_slice())?;
    Ok(clients)
}

// ---- nodes

fn no_nodes(alloc: Global) -> Result<Vec<NodeCourse>, NoMemory>
    ensures { IfOk result (λ nodes. nodes.items ≡ replicate 256 no_node) }
{
    let mut nodes = Vec::new(alloc);
    for _turn in 0..NUMBER_LIMIT {
        nodes.push(NO_NODE)?;
    }
    Ok(nodes)
}

fn limit(nodes: &mut Vec<NodeCourse>, quota: &Quota)
    ensures { nodes.new.items ≡ limited nodes.old.items quota.now }
{
    let place = usize::from(quota.node.0);
    if place < nodes.len() {
        nodes[place].quota = quota.bytes;
    }
}

#[tactic(auto, using(std::proofs::lemmas::List::Sums::fold_more))]
fn limit_all(nodes: &mut Vec<NodeCourse>, quotas: &[Quota])
    ensures { nodes.new.items ≡ fold limited nodes.old.items quotas.now }
{
    for quota in quotas {
        limit(nodes, quota);
    }
}

fn add_line(nodes: &mut Vec<NodeCourse>, node: NodeNo) -> Result<(), NoMemory>
    ensures { OnOk result (nodes.new.items ≡ with_line node nodes.old.items) }
{
    let place = usize::from(node.0);
    if place < nodes.len() {
        nodes[place].lines = nodes[place].lines.checked_add(1).ok_or(NoMemory)?;
    }
    Ok(())
}

fn ground(nodes: &mut Vec<NodeCourse>, line: &FaultLine) -> Result<(), NoMemory>
    ensures { OnOk result (nodes.new.items ≡ grounded nodes.old.items line.now) }
{
    match &line.fault {
        Planned::Crash { node, .. } | Planned::Stop { node, .. } => add_line(nodes, *node),
        Planned::At { node, point } if !point.after => add_line(nodes, *node),
        _ => Ok(()),
    }
}

#[tactic(auto, using(std::proofs::lemmas::List::Sums::fold_more))]
fn ground_all(nodes: &mut Vec<NodeCourse>, faults: &[FaultLine]) -> Result<(), NoMemory>
    ensures { OnOk result (nodes.new.items ≡ fold grounded nodes.old.items faults.now) }
{
    for line in faults {
        ground(nodes, line)?;
    }
    Ok(())
}

fn nodes_of(alloc: Global, script: &Script) -> Result<Vec<NodeCourse>, NoMemory>
    ensures { IfOk result (λ nodes. nodes.items ≡ nodes_of script.now) }
{
    let mut nodes = no_nodes(alloc)?;
    limit_all(&mut nodes, script.quotas.as_slice());
    ground_all(&mut nodes, script.faults.as_slice())?;
    Ok(nodes)
}

// ---- the entries that lines name

fn deed_of(kind: PointKind) -> Deed
    ensures { result ≡ deed_of kind }
{
    match kind {
        PointKind::Serve => Deed::Serve,
        PointKind::Vote => Deed::Vote,
        PointKind::Decide => Deed::Decide,
        PointKind::Learn => Deed::Learn,
    }
}

fn mark_of(node: NodeNo, point: &Point) -> Result<Mark, NoMemory>
    ensures { IfOk result (λ mark. mark ≡ mark_of node point.now) }
{
    Ok(Mark {
        node,
        after: point.after,
        deed: deed_of(point.kind),
        label: point.label.copy()?,
    })
}

fn add_mark(marks: &mut BTreeMap<Mark, u32>, line: &FaultLine) -> Result<(), NoMemory>
    ensures { OnOk result (marks.new.entries ≡ marked marks.old.entries line.now) }
{
    if let Planned::At { node, point } = &line.fault {
        marks.insert(mark_of(*node, point)?, line.line)?;
    }
    Ok(())
}

#[tactic(auto, using(std::proofs::lemmas::List::Sums::fold_more))]
fn mark_all(marks: &mut BTreeMap<Mark, u32>, faults: &[FaultLine]) -> Result<(), NoMemory>
    ensures { OnOk result (marks.new.entries ≡ fold marked marks.old.entries faults.now) }
{
    for line in faults {
        add_mark(marks, line)?;
    }
    Ok(())
}

fn marks_of(alloc: Global, script: &Script) -> Result<BTreeMap<Mark, u32>, NoMemory>
    ensures { IfOk result (λ marks. marks.entries ≡ marks_of script.now) }
{
    let mut marks = BTreeMap::new(alloc);
    mark_all(&mut marks, script.faults.as_slice())?;
    Ok(marks)
}

impl Course {
    /// The course as a run of this script begins, from what the logs of its nodes hold. The only
    /// error is a refusal of memory.
    pub fn new(alloc: Global, script: &Script, opened: &[Opened]) -> Result<Course, NoMemory>
        ensures { IfOk result (λ course. course ≡ at_start script.now (opening opened.now)) }
    {
        Ok(Course {
            alloc,
            book: Book::opening(alloc, opened)?,
            audit: script.audit,
            clients: clients_of(alloc, script)?,
            nodes: nodes_of(alloc, script)?,
            marks: marks_of(alloc, script)?,
            replies: BTreeMap::new(alloc),
        })
    }
}
