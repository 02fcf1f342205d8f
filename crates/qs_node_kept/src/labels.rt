//! The labels that a node has met, found by themselves and by their transactions.
ghost use Rattle.std.specs.Prelude.{◌≡◌, ◌++◌, ◌∷◌, [], Some, None, true, OnOk, IfOk, IfSome};
ghost use Rattle.std.specs.List.{find};
ghost use Rattle.std.specs.Option.{option_copied};
ghost use Rattle.qs_base.specs.Order.{bytes_cmp, tid_cmp};
ghost use Rattle.qs_node_kept.specs.Index.{IsIndexOf, found_at};
ghost use Rattle.qs_node_kept.specs.Keeping.{has_label, is_label_of, IsLabelled, IsFoundLast};

use crate::grown::Grown;
use crate::kept::KeptLabel;
use qs_base::{Bytes, Copied, List, NoMemory, Tid};
use qs_base_map::newest_first;
use std::alloc::Global;
use std::collections::BTreeMap;
use std::marker::Model;

/// Labels in the order in which they were met.
#[derive(Drop)]
pub(crate) struct Labels {
    items: Grown<KeptLabel>,
    by_label: BTreeMap<Bytes, usize>,
    by_tid: BTreeMap<Tid, usize>,
    /// The label that was met last was not met before, so that it is found by itself, with no search.
    newest_is_new: bool,
}

impl Model for Labels {
    ghost use Rattle.qs_node_kept.specs.Keeping.{IsFound};
    ghost use Rattle.qs_node_kept.specs.Ledger.{LedgerValue};
    ghost use Rattle.qs_node_kept.specs.declared.kept.KeptLabel.{KeptLabel};

    ghost Value = { LedgerValue KeptLabel };

    ghost view = { λ l. l.items };

    ghost invariant = { λ l. IsFound l.by_label.entries l.by_tid.entries l.newest_is_new l.items.now };
}

impl Labels {
    ghost use Rattle.std.specs.Prelude.{◌≡◌, ◌++◌, ◌∷◌, [], OnOk, OnErr, IfOk, IfErr};
    ghost use Rattle.std.specs.List.{find};
    ghost use Rattle.std.specs.Option.{option_copied};
    ghost use Rattle.qs_node_kept.specs.Keeping.{has_label, is_label_of};

    /// These labels, all accepted. For want of memory they are handed back.
    pub fn new(alloc: Global, labels: List<KeptLabel>) -> Result<Labels, List<KeptLabel>>
        ensures ok { IfOk result (λ made. made ≡ record { now = labels; saved = labels }) }
        ensures back { IfErr result (λ back. back ≡ labels) }
    {
        let mut by_label = BTreeMap::new(alloc);
        let mut by_tid = BTreeMap::new(alloc);
        match note_all(&mut by_label, &mut by_tid, labels.as_slice()) {
            Ok(()) => Ok(Labels {
                items: Grown::new(labels),
                by_label,
                by_tid,
                newest_is_new: false,
            }),
            Err(NoMemory) => Err(labels),
        }
    }

    /// The labels as they are.
    pub fn items(&self) -> &[KeptLabel]
        ensures { result.now ≡ self.now.now }
    {
        self.items.items()
    }

    /// The label, where it was met.
    pub fn at(&self, label: &Bytes) -> Option<&KeptLabel>
        ensures { option_copied result ≡ find (has_label label.now) self.now.now }
    {
        let items = self.items.items();
        match newest(self.newest_is_new, items, label) {
            Some(begun) => Some(begun),
            None => label_at(&self.by_label, items, label),
        }
    }

    /// The label of the transaction, where it was met.
    pub fn of(&self, tid: Tid) -> Option<&KeptLabel>
        ensures { option_copied result ≡ find (is_label_of tid) self.now.now }
    {
        label_of(&self.by_tid, self.items.items(), tid)
    }

    /// One more label. After a refusal all is as it was.
    pub fn push(&mut self, begun: KeptLabel) -> Result<(), NoMemory>
        ensures ok { OnOk result (self.new ≡ record self.old { now = self.old.now ++ begun ∷ [] }) }
        ensures err { OnErr result (self.new ≡ self.old) }
    {
        let is_new = note_label(&mut self.by_label, self.items.items(), &begun)?;
        note_tid(&mut self.by_tid, self.items.items(), &begun)?;
        self.items.push(begun)?;
        self.newest_is_new = is_new;
        Ok(())
    }

    /// What it is counts from now on. It takes no memory.
    pub fn accept(&mut self)
        ensures { self.new ≡ record self.old { saved = self.old.now } }
    {
        self.items.accept();
    }

    /// The labels as they were at the last `accept`. It takes no memory.
    pub fn restore(self) -> List<KeptLabel>
        ensures { result ≡ self.saved }
    {
        self.items.restore()
    }
}

fn has_label(label: &Bytes, begun: &KeptLabel) -> bool
    ensures { result ≡ has_label label.now begun.now }
{
    label.cmp(&begun.label).is_eq()
}

fn is_label_of(tid: Tid, begun: &KeptLabel) -> bool
    ensures { result ≡ is_label_of tid begun.now }
{
    match begun.tid {
        None => false,
        Some(other) => tid == other,
    }
}

fn with_label<'a>(labels: &'a [KeptLabel], place: usize, label: &Bytes) -> Option<&'a KeptLabel>
    ensures { option_copied result ≡ found_at (has_label label.now) labels.now (Some place) }
{
    match labels.get(place) {
        Some(begun) => {
            if has_label(label, begun) {
                Some(begun)
            } else {
                None
            }
        }
        None => None,
    }
}

/// The label that was met last, where it is this one and was new.
fn newest<'a>(is_new: bool, labels: &'a [KeptLabel], label: &Bytes) -> Option<&'a KeptLabel>
    requires { is_new ≡ true → IsFoundLast labels.now }
    ensures { IfSome result (λ begun. find (has_label label.now) labels.now ≡ Some begun.now) }
{
    if is_new {
        with_label(labels, labels.len().saturating_sub(1), label)
    } else {
        None
    }
}

fn label_at<'a>(
    places: &BTreeMap<Bytes, usize>,
    labels: &'a [KeptLabel],
    label: &Bytes,
) -> Option<&'a KeptLabel>
    requires { IsIndexOf bytes_cmp has_label places.now.entries labels.now }
    ensures { option_copied result ≡ find (has_label label.now) labels.now }
{
    match places.get(label) {
        Some(place) => with_label(labels, *place, label),
        None => None,
    }
}

fn with_tid(labels: &[KeptLabel], place: usize, tid: Tid) -> Option<&KeptLabel>
    ensures { option_copied result ≡ found_at (is_label_of tid) labels.now (Some place) }
{
    match labels.get(place) {
        Some(begun) => {
            if is_label_of(tid, begun) {
                Some(begun)
            } else {
                None
            }
        }
        None => None,
    }
}

fn label_of<'a>(
    places: &BTreeMap<Tid, usize>,
    labels: &'a [KeptLabel],
    tid: Tid,
) -> Option<&'a KeptLabel>
    requires { IsIndexOf tid_cmp is_label_of places.now.entries labels.now }
    ensures { option_copied result ≡ find (is_label_of tid) labels.now }
{
    match newest_first(places, &tid) {
        Some(place) => with_tid(labels, *place, tid),
        None => None,
    }
}

/// The label has the next place, unless it was met before. Whether it is new.
fn note_label(
    places: &mut BTreeMap<Bytes, usize>,
    before: &[KeptLabel],
    begun: &KeptLabel,
) -> Result<bool, NoMemory>
    requires { IsIndexOf bytes_cmp has_label places.old.entries before.now }
    ensures ok { OnOk result (IsIndexOf bytes_cmp has_label places.new.entries (before.now ++ begun.now ∷ [])) }
    ensures new { IfOk result (λ is_new. is_new ≡ true → find (has_label begun.now.label) before.now ≡ None) }
    ensures stays { IsIndexOf bytes_cmp has_label places.new.entries before.now }
{
    match label_at(places, before, &begun.label) {
        Some(_) => Ok(false),
        None => {
            places.insert(begun.label.copy()?, before.len())?;
            Ok(true)
        }
    }
}

/// The transaction, if there is one, has the next place, unless a label of it was met before.
fn note_tid(
    places: &mut BTreeMap<Tid, usize>,
    before: &[KeptLabel],
    begun: &KeptLabel,
) -> Result<(), NoMemory>
    requires { IsIndexOf tid_cmp is_label_of places.old.entries before.now }
    ensures ok { OnOk result (IsIndexOf tid_cmp is_label_of places.new.entries (before.now ++ begun.now ∷ [])) }
    ensures stays { IsIndexOf tid_cmp is_label_of places.new.entries before.now }
{
    let Some(tid) = begun.tid else {
        return Ok(());
    };
    match label_of(places, before, tid) {
        Some(_) => Ok(()),
        None => {
            places.insert(tid, before.len())?;
            Ok(())
        }
    }
}

fn note_all(
    by_label: &mut BTreeMap<Bytes, usize>,
    by_tid: &mut BTreeMap<Tid, usize>,
    labels: &[KeptLabel],
) -> Result<(), NoMemory>
    requires { IsLabelled by_label.old.entries by_tid.old.entries [] }
    ensures { OnOk result (IsLabelled by_label.new.entries by_tid.new.entries labels.now) }
{
    for place in 0..labels.len() {
        let (before, _) = labels.split_at(place);
        note_label(by_label, before, &labels[place])?;
        note_tid(by_tid, before, &labels[place])?;
    }
    Ok(())
}
