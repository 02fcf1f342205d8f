//! What a script asks of one node and of one client.
ghost use Rattle.std.specs.Prelude.{◌≡◌, IfOk};
ghost use Rattle.qs_world_plans.specs.Plan.{quota_of, setting_of, crashes_of, stops_of, points_of, commands_of};

use qs_base::{ClientNo, Copied, List, NoMemory, NodeNo};
use qs_book_journal::{Point, ScriptLine};
use qs_book_script::{FaultLine, Planned, Quota, Script};
use qs_node_step::Setting;
use std::alloc::Global;

/// The node of a run of one node.
pub const NODE: NodeNo = NodeNo(0);

/// How many nodes such a run has.
pub const NODE_COUNT: u8 = 1;

/// The bytes that the files of a node may have where no line says so.
const DEFAULT_QUOTA: u64 = 1_048_576;

/// The bytes that a log keeps free for each transaction that is not ended.
const KEPT_BYTES: u64 = 128;

/// The bytes that the files of the node may have.
fn quota_of(quotas: &[Quota], node: NodeNo) -> u64
    ensures { result ≡ quota_of node quotas.now }
{
    for quota in quotas {
        if quota.node == node {
            return quota.bytes;
        }
    }
    DEFAULT_QUOTA
}

/// How a script sets the node of a run of so many nodes, in an incarnation.
pub fn setting_of(script: &Script, nodes: u8, node: NodeNo, inc: u64) -> Setting
    ensures { result ≡ setting_of script.now nodes node inc }
{
    Setting {
        node,
        inc,
        nodes,
        quota: quota_of(script.quotas.as_slice(), node),
        audit: script.audit,
        extra: 0,
        keep: KEPT_BYTES,
        age: None,
    }
}

/// The numbers of the events in place of which the node stops.
pub fn crashes_of(alloc: Global, lines: &[FaultLine], node: NodeNo) -> Result<List<u64>, NoMemory>
    ensures { IfOk result (λ events. events ≡ crashes_of node lines.now) }
{
    let mut events = List::new(alloc);
    for line in lines {
        if let Planned::Crash { node: at, event } = &line.fault {
            if *at == node {
                events.push(*event)?;
            }
        }
    }
    Ok(events)
}

/// The numbers of the disk calls of the node that trip.
pub fn stops_of(alloc: Global, lines: &[FaultLine], node: NodeNo) -> Result<List<u64>, NoMemory>
    ensures { IfOk result (λ calls. calls ≡ stops_of node lines.now) }
{
    let mut calls = List::new(alloc);
    for line in lines {
        if let Planned::Stop { node: at, call } = &line.fault {
            if *at == node {
                calls.push(*call)?;
            }
        }
    }
    Ok(calls)
}

/// The entries before or after which the node stops.
pub fn points_of(alloc: Global, lines: &[FaultLine], node: NodeNo) -> Result<List<Point>, NoMemory>
    ensures { IfOk result (λ points. points ≡ points_of node lines.now) }
{
    let mut points = List::new(alloc);
    for line in lines {
        if let Planned::At { node: at, point } = &line.fault {
            if *at == node {
                points.push(copied(point)?)?;
            }
        }
    }
    Ok(points)
}

fn copied(point: &Point) -> Result<Point, NoMemory>
    ensures { IfOk result (λ copy. copy ≡ point.now) }
{
    Ok(Point {
        after: point.after,
        kind: point.kind,
        label: point.label.copy()?,
    })
}

/// The commands of a client, in the order of their lines.
pub fn commands_of(
    alloc: Global,
    lines: &[ScriptLine],
    client: ClientNo,
) -> Result<List<ScriptLine>, NoMemory>
    ensures { IfOk result (λ commands. commands ≡ commands_of client lines.now) }
{
    let mut commands = List::new(alloc);
    for line in lines {
        if line.client == client {
            commands.push(line.copy()?)?;
        }
    }
    Ok(commands)
}
