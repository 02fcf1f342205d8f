//! What a node keeps of the transactions that it knows, with the span of those to which something may be due.
ghost use Rattle.std.specs.Prelude.{◌≡◌, ◌<◌, ◌^◌, true, false, [], length, fold, Option, Some, None, IfOk, OnOk, OnErr, is_some};
ghost use Rattle.std.specs.List.{list_any};
ghost use Rattle.std.specs.Option.{option_copied, option_copied_mut};
ghost use Rattle.std.specs.Ordering.{is_gt};
ghost use Rattle.std.specs.Map.{lookup, remove_entry};
ghost use Rattle.std.specs.Map.Iter.{ShowsInOrder, deref_pair};
ghost use Rattle.std.specs.BTreeMap.{insert_entry, is_at};
ghost use Rattle.std.specs.BTreeMap.Range.{IsLeBy, entries_between};
ghost use Rattle.std.specs.declared.ops.Bound.TheVariants.{Included};
ghost use Rattle.qs_base.specs.Order.{tid_cmp};
ghost use Rattle.qs_tm.specs.Known.{may_be_due, in_span, IsSpanned};
ghost use Rattle.qs_tm.specs.Manager.{put_tid};
ghost use Rattle.qs_tm.specs.declared.manager.Which.TheVariants as whiches;

use crate::manager::{Which, put_tid};
use crate::participant::Participant;
use qs_base::{List, NoMemory, Tid};
use qs_base_map::Map;
use std::alloc::Global;
use std::cmp::Ordering;
use std::collections::btree_map::Iter;
use std::marker::Model;

/// What is kept of each transaction, by their identifiers. All to which something may be due stand in a span of
/// identifiers, so that these are found without going over all that are known: the span takes in each one that is put or
/// lent, and goes to that one alone, or to none, where nothing is due in it.
#[derive(Drop)]
pub struct Known {
    parts: Map<Tid, Participant>,
    /// The first identifier of the span, and the last one.
    span: Option<(Tid, Tid)>,
}

impl Model for Known {
    ghost use Rattle.std.specs.Prelude.{List};
    ghost use Rattle.qs_base.specs.declared.identifiers.Tid.{Tid};
    ghost use Rattle.qs_tm.specs.declared.participant.Participant.{Participant};
    ghost use Rattle.qs_tm.specs.Known.{IsSpanned};

    ghost Value = { List (Tid × Participant) };

    ghost view = { λ k. k.parts };

    ghost invariant = { λ k. IsSpanned k.span k.parts };
}

impl Known {
    ghost use Rattle.std.specs.Borrow.{sem};
    ghost use Rattle.qs_tm.specs.LentPart.{lends_part};

    /// Nothing. It takes no memory.
    pub fn new(alloc: Global) -> Known
        ensures { result ≡ [] }
    {
        Known {
            parts: Map::new(alloc),
            span: None,
        }
    }

    /// What is kept of a transaction.
    pub fn get(&self, tid: &Tid) -> Option<&Participant>
        ensures { option_copied result ≡ lookup (is_at (tid_cmp tid.now)) self.now }
    {
        self.parts.get(tid)
    }

    /// Whether it is known.
    pub fn has(&self, tid: &Tid) -> bool
        ensures { result ≡ is_some (lookup (is_at (tid_cmp tid.now)) self.now) }
    {
        self.parts.has(tid)
    }

    /// What is kept of a transaction, for writing. It takes no memory.
    pub fn get_mut(&mut self, tid: &Tid) -> Option<&mut Participant>
        ensures* lends { sem 𝓛 (lends_part self.entry tid.now result) }
        ensures value { option_copied_mut result ≡ lookup (is_at (tid_cmp tid.now)) self.old }
    {
        self.span = Some(touched(&self.parts, self.span, *tid));
        self.parts.get_mut(tid)
    }

    /// This is kept of a transaction. After a refusal all is as it was.
    pub fn put(&mut self, tid: Tid, part: Participant) -> Result<(), NoMemory>
        ensures ok { OnOk result (self.new ≡ insert_entry tid_cmp self.old tid part) }
        ensures err { OnErr result (self.new ≡ self.old) }
    {
        self.span = Some(touched(&self.parts, self.span, tid));
        self.parts.put(tid, part)
    }

    /// All that is kept, in order.
    pub fn iter(&self) -> Iter<'_, Tid, Participant>
        ensures rest { result ≡ self.now }
        ensures runs { ShowsInOrder (deref_pair {K = Tid} {X = Participant}) }
        ensures fits { length self.now < 2 ^ 63 }
    {
        self.parts.iter()
    }

    /// The transaction is unknown from now on. It takes no memory.
    pub fn remove(&mut self, tid: &Tid)
        ensures { self.new ≡ remove_entry (is_at (tid_cmp tid.now)) self.old }
    {
        self.parts.remove(tid);
    }

    /// Those to which something may be due, in order. Where there are none, nothing is searched until one is put or lent.
    pub fn due(&mut self, alloc: Global) -> Result<List<Tid>, NoMemory>
        ensures due { IfOk result (λ tids. tids ≡ fold (put_tid whiches.Due) [] self.old) }
        ensures known { self.new ≡ self.old }
    {
        let tids = self.due_of_span(alloc)?;
        if tids.is_empty() {
            self.span = None;
        }
        Ok(tids)
    }

    /// Those to which something may be due, in order.
    fn due_of_span(&self, alloc: Global) -> Result<List<Tid>, NoMemory>
        ensures { IfOk result (λ tids. tids ≡ fold (put_tid whiches.Due) [] self.now) }
    {
        match self.span {
            Some(span) => due_of(alloc, &self.parts, span),
            None => Ok(List::new(alloc)),
        }
    }
}

/// The span with one that is to be put or lent.
fn touched(parts: &Map<Tid, Participant>, span: Option<(Tid, Tid)>, tid: Tid) -> (Tid, Tid)
    requires { IsSpanned span parts.now }
    ensures spanned { IsSpanned (Some result) parts.now }
    ensures within { in_span (Some result) tid ≡ true }
{
    match span {
        Some(span) => touched_span(parts, span, tid),
        None => (tid, tid),
    }
}

fn touched_span(parts: &Map<Tid, Participant>, span: (Tid, Tid), tid: Tid) -> (Tid, Tid)
    requires { IsSpanned (Some span) parts.now }
    ensures spanned { IsSpanned (Some result) parts.now }
    ensures within { in_span (Some result) tid ≡ true }
{
    if is_within(span, tid) {
        return span;
    }
    if has_due(parts, span) {
        (least(span.0, tid), greatest(span.1, tid))
    } else {
        (tid, tid)
    }
}

fn is_within(span: (Tid, Tid), tid: Tid) -> bool
    ensures { result ≡ in_span (Some span) tid }
{
    span.0 <= tid && !(span.1 < tid)
}

fn least(a: Tid, b: Tid) -> Tid
    ensures first { is_gt (tid_cmp result a) ≡ false }
    ensures second { is_gt (tid_cmp result b) ≡ false }
{
    match a.cmp(&b) {
        Ordering::Greater => b,
        _ => a,
    }
}

fn greatest(a: Tid, b: Tid) -> Tid
    ensures first { is_gt (tid_cmp a result) ≡ false }
    ensures second { is_gt (tid_cmp b result) ≡ false }
{
    match a.cmp(&b) {
        Ordering::Less => b,
        _ => a,
    }
}

/// Whether something may be due to one of the span.
fn has_due(parts: &Map<Tid, Participant>, span: (Tid, Tid)) -> bool
    requires { IsLeBy tid_cmp span.0 span.1 }
    ensures { result ≡ list_any (λ entry. may_be_due entry.1) (entries_between tid_cmp (Included span.0) (Included span.1) parts.now) }
{
    parts
        .between(span.0, span.1)
        .any(|entry| may_be_due(entry.1))
}

fn may_be_due(part: &Participant) -> bool
    ensures { result ≡ may_be_due part.now }
{
    part.outcome.is_none() && (part.asked || part.blocked)
}

/// Those to which something may be due, all of which stand in the span.
fn due_of(
    alloc: Global,
    parts: &Map<Tid, Participant>,
    span: (Tid, Tid),
) -> Result<List<Tid>, NoMemory>
    requires { IsSpanned (Some span) parts.now }
    ensures { IfOk result (λ tids. tids ≡ fold (put_tid whiches.Due) [] parts.now) }
{
    if span.0 == span.1 {
        due_alone(alloc, parts, span.0)
    } else {
        due_in(alloc, parts, span)
    }
}

/// The transaction, if something may be due to it; to no other may something be due.
fn due_alone(alloc: Global, parts: &Map<Tid, Participant>, tid: Tid) -> Result<List<Tid>, NoMemory>
    requires { IsSpanned (Some (tid, tid)) parts.now }
    ensures { IfOk result (λ tids. tids ≡ fold (put_tid whiches.Due) [] parts.now) }
{
    let mut tids = List::new(alloc);
    if let Some(part) = parts.get_unique(&tid) {
        put_tid(&mut tids, Which::Due, tid, part)?;
    }
    Ok(tids)
}

/// Those of the span to which something may be due, in order.
fn due_in(
    alloc: Global,
    parts: &Map<Tid, Participant>,
    span: (Tid, Tid),
) -> Result<List<Tid>, NoMemory>
    requires { IsLeBy tid_cmp span.0 span.1 }
    ensures { IfOk result (λ tids. tids ≡ fold (put_tid whiches.Due) [] (entries_between tid_cmp (Included span.0) (Included span.1) parts.now)) }
{
    let mut tids = List::new(alloc);
    for entry in parts.between(span.0, span.1) {
        put_tid(&mut tids, Which::Due, *entry.0, entry.1)?;
    }
    Ok(tids)
}
