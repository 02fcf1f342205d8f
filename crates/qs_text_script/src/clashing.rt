//! Fault lines that say the same, or speak of the same packet.
ghost use Rattle.std.specs.Prelude.{◌≡◌};
ghost use Rattle.qs_text_script.specs.Clashes.{is_crash, is_stop, same_kind, same_side, same_point, is_point, same_packet, is_on, clashes};

use qs_base::NodeNo;
use qs_book_journal::{Point, PointKind};
use qs_book_script::Planned;

/// Whether it is the same fault, or a fault on the same packet.
pub fn clashes(fault: &Planned, other: &Planned) -> bool
    ensures { result ≡ clashes fault.now other.now }
{
    match fault {
        Planned::Crash { node, event } => is_crash(*node, *event, other),
        Planned::Stop { node, call } => is_stop(*node, *call, other),
        Planned::At { node, point } => is_point(*node, point, other),
        Planned::Drop { from, to, packet } => is_on(*from, *to, *packet, other),
        Planned::Again { from, to, packet } => is_on(*from, *to, *packet, other),
        Planned::Hold {
            from,
            to,
            packet,
            ..
        } => is_on(*from, *to, *packet, other),
    }
}

/// Whether it is a crash of that node in place of that event.
fn is_crash(node: NodeNo, event: u64, other: &Planned) -> bool
    ensures { result ≡ is_crash node.0 event other.now }
{
    match other {
        Planned::Crash {
            node: stops,
            event: at,
        } => stops.0 == node.0 && *at == event,
        _ => false,
    }
}

/// Whether that disk call of that node is the one that trips.
fn is_stop(node: NodeNo, call: u64, other: &Planned) -> bool
    ensures { result ≡ is_stop node.0 call other.now }
{
    match other {
        Planned::Stop {
            node: stops,
            call: at,
        } => stops.0 == node.0 && *at == call,
        _ => false,
    }
}

/// Whether that node stops at that point.
fn is_point(node: NodeNo, point: &Point, other: &Planned) -> bool
    ensures { result ≡ is_point node.0 point.now other.now }
{
    match other {
        Planned::At {
            node: stops,
            point: at,
        } => stops.0 == node.0 && same_point(at, point),
        _ => false,
    }
}

fn same_point(one: &Point, other: &Point) -> bool
    ensures { result ≡ same_point one.now other.now }
{
    same_side(one.after, other.after) && same_kind(one.kind, other.kind) && one.label == other.label
}

fn same_side(one: bool, other: bool) -> bool
    ensures { result ≡ same_side one other }
{
    if one { other } else { !other }
}

fn same_kind(one: PointKind, other: PointKind) -> bool
    ensures { result ≡ same_kind one other }
{
    match (one, other) {
        (PointKind::Serve, PointKind::Serve)
        | (PointKind::Vote, PointKind::Vote)
        | (PointKind::Decide, PointKind::Decide)
        | (PointKind::Learn, PointKind::Learn) => true,
        _ => false,
    }
}

/// Whether the fault is one on that packet of that link, of whatever kind.
fn is_on(from: NodeNo, to: NodeNo, packet: u64, other: &Planned) -> bool
    ensures { result ≡ is_on from.0 to.0 packet other.now }
{
    match other {
        Planned::Drop {
            from: f,
            to: t,
            packet: p,
        } => same_packet(from, to, packet, *f, *t, *p),
        Planned::Again {
            from: f,
            to: t,
            packet: p,
        } => same_packet(from, to, packet, *f, *t, *p),
        Planned::Hold {
            from: f,
            to: t,
            packet: p,
            ..
        } => same_packet(from, to, packet, *f, *t, *p),
        _ => false,
    }
}

fn same_packet(from: NodeNo, to: NodeNo, packet: u64, f: NodeNo, t: NodeNo, p: u64) -> bool
    ensures { result ≡ same_packet from.0 to.0 packet f.0 t.0 p }
{
    f.0 == from.0 && t.0 == to.0 && p == packet
}
