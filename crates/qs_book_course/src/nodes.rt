//! What entries make of the nodes, which stand by number: crashes, stamps, and fault lines that are past.
ghost use Rattle.std.specs.Prelude.{◌≡◌, OnOk, true};
ghost use Rattle.qs_book_machine.specs.Book.{changed_at};
ghost use Rattle.qs_book_conformance.specs.Crashes.{is_right_after, crashed_by, stopped, passed_by};
ghost use Rattle.qs_book_conformance.specs.Effects.{stepped};

use qs_base::{NoMemory, NodeNo, Stamp};
use qs_book_conformance::NodeCourse;
use qs_book_journal::CrashCause;

/// The quota of a node where the script sets none.
pub const DEFAULT_QUOTA: u64 = 1_048_576;

/// No stamp is greater.
const LAST_STAMP: Stamp = (1 << 62) - 1;

// ---- one node

/// Whether this stamp is that of a step right after the one that made the entry after which a line
/// stops the node: a greater one, or the last, which stays.
pub fn is_right_after(node: &NodeCourse, stamp: Stamp) -> bool
    ensures { result ≡ is_right_after node.now stamp }
{
    node.is_after && (node.stamp < stamp || stamp == LAST_STAMP)
}

fn crash_by(node: &mut NodeCourse, stamp: Stamp, cause: CrashCause) -> Result<(), NoMemory>
    ensures { OnOk result (node.new ≡ crashed_by stamp cause node.old) }
{
    match cause {
        CrashCause::Plan if is_right_after(node, stamp) => {}
        CrashCause::Plan => node.owing = node.owing.checked_add(1).ok_or(NoMemory)?,
        CrashCause::Disk { to, .. } => node.faults = to,
        CrashCause::Last { .. } | CrashCause::Memory => {}
    }
    Ok(())
}

fn stop_one(node: &mut NodeCourse, stamp: Stamp, cause: CrashCause) -> Result<(), NoMemory>
    ensures { OnOk result (node.new ≡ stopped stamp cause node.old) }
{
    crash_by(node, stamp, cause)?;
    node.is_after = false;
    Ok(())
}

fn pass_one(node: &mut NodeCourse)
    ensures { node.new ≡ passed_by node.old }
{
    node.lines = node.lines.saturating_sub(1);
    node.owing = node.owing.saturating_sub(1);
}

fn step_one(node: &mut NodeCourse, stamp: Stamp)
    ensures { node.new ≡ stepped stamp node.old }
{
    node.is_after = node.is_after && node.stamp == stamp;
    node.stamp = stamp;
}

// ---- by number

/// The node stops. A count at its end stands for want of memory.
pub fn stop(
    nodes: &mut Vec<NodeCourse>,
    here: NodeNo,
    stamp: Stamp,
    cause: CrashCause,
) -> Result<(), NoMemory>
    ensures { OnOk result (nodes.new.items ≡ changed_at here.0 (stopped stamp cause) nodes.old.items) }
{
    let place = usize::from(here.0);
    if place < nodes.len() {
        stop_one(&mut nodes[place], stamp, cause)?;
    }
    Ok(())
}

/// An entry of the node stands that a line `before` names.
pub fn pass_before(nodes: &mut Vec<NodeCourse>, here: NodeNo)
    ensures { nodes.new.items ≡ changed_at here.0 passed_by nodes.old.items }
{
    let place = usize::from(here.0);
    if place < nodes.len() {
        pass_one(&mut nodes[place]);
    }
}

/// An entry of the node stands after which a line stops it.
pub fn stand_after(nodes: &mut Vec<NodeCourse>, here: NodeNo)
    ensures { nodes.new.items ≡ changed_at here.0 (λ node. record node { is_after = true }) nodes.old.items }
{
    let place = usize::from(here.0);
    if place < nodes.len() {
        nodes[place].is_after = true;
    }
}

/// An entry of this stamp is the node's last.
pub fn step(nodes: &mut Vec<NodeCourse>, here: NodeNo, stamp: Stamp)
    ensures { nodes.new.items ≡ changed_at here.0 (stepped stamp) nodes.old.items }
{
    let place = usize::from(here.0);
    if place < nodes.len() {
        step_one(&mut nodes[place], stamp);
    }
}
