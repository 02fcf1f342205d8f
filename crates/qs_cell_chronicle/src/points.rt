//! The lines of a script that stop a node before or after the first entry of a kind for a label's transaction.
//!
//! A node knows the transaction of a label by what it keeps: a label comes with its Begin, and with each request that is made
//! for it.
ghost use Rattle.std.specs.Prelude.{◌≡◌, map};
ghost use Rattle.std.specs.List.{list_any};
ghost use Rattle.qs_cell_chronicle.specs.Points.{same_kind, is_tid, tid_at, names_kind, names, is_first_of, stops_before, stops_after, spent, after_entries};

use qs_base::{Bytes, Tid};
use qs_book_journal::{Act, Point, PointKind};
use qs_node_kept::Keeping;

/// A line of the script that names the first entry of a kind for a label's transaction, and what came of it.
#[derive(Drop)]
pub struct Watched {
    pub point: Point,
    /// The entry was made, or the line stopped the node before it.
    pub passed: bool,
}

// ---- which entries a line names

fn same_kind(kind: PointKind, other: PointKind) -> bool
    ensures { result ≡ same_kind kind other }
{
    matches!(
        (kind, other),
        (PointKind::Serve, PointKind::Serve)
            | (PointKind::Vote, PointKind::Vote)
            | (PointKind::Decide, PointKind::Decide)
            | (PointKind::Learn, PointKind::Learn)
    )
}

fn is_tid(tid: Tid, other: Option<Tid>) -> bool
    ensures { result ≡ is_tid tid other }
{
    match other {
        None => false,
        Some(other) => tid == other,
    }
}

/// The transaction of a label, where the node has met it.
fn tid_at(kept: &Keeping, label: &Bytes) -> Option<Tid>
    ensures { result ≡ tid_at kept.now.now.labels label.now }
{
    match kept.label_at(label) {
        None => None,
        Some(met) => met.tid,
    }
}

fn names_kind(kept: &Keeping, kind: PointKind, tid: Tid, watched: &Watched) -> bool
    ensures { result ≡ names_kind kept.now.now.labels kind tid watched.now }
{
    same_kind(kind, watched.point.kind) && is_tid(tid, tid_at(kept, &watched.point.label))
}

fn names(kept: &Keeping, act: &Act, watched: &Watched) -> bool
    ensures { result ≡ names kept.now.now.labels act.now watched.now }
{
    match act {
        Act::Serve { tid, .. } => names_kind(kept, PointKind::Serve, *tid, watched),
        Act::Vote { tid, .. } => names_kind(kept, PointKind::Vote, *tid, watched),
        Act::Decide { tid, .. } => names_kind(kept, PointKind::Decide, *tid, watched),
        Act::Learn { tid, .. } => names_kind(kept, PointKind::Learn, *tid, watched),
        _ => false,
    }
}

fn is_first_of(kept: &Keeping, entries: &[Act], watched: &Watched) -> bool
    ensures { result ≡ is_first_of kept.now.now.labels entries.now watched.now }
{
    !watched.passed && any_names(kept, entries, watched)
}

fn any_names(kept: &Keeping, entries: &[Act], watched: &Watched) -> bool
    ensures { result ≡ list_any (λ act. names kept.now.now.labels act watched.now) entries.now }
{
    entries.iter().any(|act| names(kept, act, watched))
}

fn stops_before(kept: &Keeping, entries: &[Act], watched: &Watched) -> bool
    ensures { result ≡ stops_before kept.now.now.labels entries.now watched.now }
{
    !watched.point.after && is_first_of(kept, entries, watched)
}

fn stops_after(kept: &Keeping, entries: &[Act], watched: &Watched) -> bool
    ensures { result ≡ stops_after kept.now.now.labels entries.now watched.now }
{
    watched.point.after && is_first_of(kept, entries, watched)
}

/// Whether a line stops the node right after a step with these entries, by the labels that it keeps.
pub fn any_stops_after(kept: &Keeping, entries: &[Act], points: &[Watched]) -> bool
    ensures { result ≡ list_any (stops_after kept.now.now.labels entries.now) points.now }
{
    points
        .iter()
        .any(|watched| stops_after(kept, entries, watched))
}

/// Whether a line stops the node in place of a step with these entries, by the labels that it keeps.
pub fn any_stops_before(kept: &Keeping, entries: &[Act], points: &[Watched]) -> bool
    ensures { result ≡ list_any (stops_before kept.now.now.labels entries.now) points.now }
{
    points
        .iter()
        .any(|watched| stops_before(kept, entries, watched))
}

// ---- what becomes of the lines

/// The first line that stops the node before such a step has done so.
pub fn spend(points: &mut Vec<Watched>, kept: &Keeping, entries: &[Act])
    ensures { points.new.items ≡ spent kept.now.now.labels entries.now points.old.items }
{
    spend_in(points.as_mut_slice(), kept, entries);
}

fn spend_in(points: &mut [Watched], kept: &Keeping, entries: &[Act])
    ensures { points.new ≡ spent kept.now.now.labels entries.now points.old }
{
    for watched in points.iter_mut() {
        if stops_before(kept, entries, watched) {
            watched.passed = true;
            return;
        }
    }
}

fn note_entries(watched: &mut Watched, kept: &Keeping, entries: &[Act])
    ensures { watched.new ≡ after_entries kept.now.now.labels entries.now watched.old }
{
    watched.passed = watched.passed || is_first_of(kept, entries, watched);
}

/// A step makes these entries, by the labels that the node keeps.
pub fn pass(points: &mut Vec<Watched>, kept: &Keeping, entries: &[Act])
    ensures { points.new.items ≡ map (after_entries kept.now.now.labels entries.now) points.old.items }
{
    for watched in points.iter_mut() {
        note_entries(watched, kept, entries);
    }
}
