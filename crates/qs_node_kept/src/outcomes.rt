//! How transactions ended, found by the transaction.
ghost use Rattle.std.specs.Prelude.{◌≡◌, ◌++◌, ◌∷◌, [], OnOk};
ghost use Rattle.std.specs.List.{find};
ghost use Rattle.std.specs.Option.{option_copied};
ghost use Rattle.qs_node_kept.specs.Index.{found_at};
ghost use Rattle.qs_node_kept.specs.Keeping.{is_outcome_of, IsEnded};

use crate::grown::Grown;
use crate::kept::Decided;
use qs_base::{List, NoMemory, Tid};
use qs_base_map::newest_first;
use std::alloc::Global;
use std::collections::BTreeMap;
use std::marker::Model;

/// Outcomes in the order in which they were learnt.
#[derive(Drop)]
pub(crate) struct Outcomes {
    items: Grown<Decided>,
    by_tid: BTreeMap<Tid, usize>,
}

impl Model for Outcomes {
    ghost use Rattle.qs_node_kept.specs.Keeping.{IsEnded};
    ghost use Rattle.qs_node_kept.specs.Ledger.{LedgerValue};
    ghost use Rattle.qs_node_kept.specs.declared.kept.Decided.{Decided};

    ghost Value = { LedgerValue Decided };

    ghost view = { λ o. o.items };

    ghost invariant = { λ o. IsEnded o.by_tid.entries o.items.now };
}

impl Outcomes {
    ghost use Rattle.std.specs.Prelude.{◌≡◌, ◌++◌, ◌∷◌, [], OnOk, OnErr, IfOk, IfErr};
    ghost use Rattle.std.specs.List.{find};
    ghost use Rattle.std.specs.Option.{option_copied};
    ghost use Rattle.qs_node_kept.specs.Keeping.{is_outcome_of};

    /// These outcomes, all accepted. For want of memory they are handed back.
    pub fn new(alloc: Global, outcomes: List<Decided>) -> Result<Outcomes, List<Decided>>
        ensures ok { IfOk result (λ made. made ≡ record { now = outcomes; saved = outcomes }) }
        ensures back { IfErr result (λ back. back ≡ outcomes) }
    {
        let mut by_tid = BTreeMap::new(alloc);
        match note_all(&mut by_tid, outcomes.as_slice()) {
            Ok(()) => Ok(Outcomes {
                items: Grown::new(outcomes),
                by_tid,
            }),
            Err(NoMemory) => Err(outcomes),
        }
    }

    /// How the transaction ended, where that is kept.
    pub fn of(&self, tid: Tid) -> Option<&Decided>
        ensures { option_copied result ≡ find (is_outcome_of tid) self.now.now }
    {
        outcome_of(&self.by_tid, self.items.items(), tid)
    }

    /// One more outcome. After a refusal all is as it was.
    pub fn push(&mut self, decided: Decided) -> Result<(), NoMemory>
        ensures ok { OnOk result (self.new ≡ record self.old { now = self.old.now ++ decided ∷ [] }) }
        ensures err { OnErr result (self.new ≡ self.old) }
    {
        note(&mut self.by_tid, self.items.items(), &decided)?;
        self.items.push(decided)
    }

    /// What it is counts from now on. It takes no memory.
    pub fn accept(&mut self)
        ensures { self.new ≡ record self.old { saved = self.old.now } }
    {
        self.items.accept();
    }

    /// The outcomes as they were at the last `accept`. It takes no memory.
    pub fn restore(self) -> List<Decided>
        ensures { result ≡ self.saved }
    {
        self.items.restore()
    }
}

fn is_outcome_of(tid: Tid, decided: &Decided) -> bool
    ensures { result ≡ is_outcome_of tid decided.now }
{
    tid == decided.tid
}

fn with_tid(outcomes: &[Decided], place: usize, tid: Tid) -> Option<&Decided>
    ensures { option_copied result ≡ found_at (is_outcome_of tid) outcomes.now (Some place) }
{
    match outcomes.get(place) {
        Some(decided) => {
            if is_outcome_of(tid, decided) {
                Some(decided)
            } else {
                None
            }
        }
        None => None,
    }
}

fn outcome_of<'a>(
    places: &BTreeMap<Tid, usize>,
    outcomes: &'a [Decided],
    tid: Tid,
) -> Option<&'a Decided>
    requires { IsEnded places.now.entries outcomes.now }
    ensures { option_copied result ≡ find (is_outcome_of tid) outcomes.now }
{
    match newest_first(places, &tid) {
        Some(place) => with_tid(outcomes, *place, tid),
        None => None,
    }
}

/// The transaction has the next place, unless an outcome of it was learnt before.
fn note(
    places: &mut BTreeMap<Tid, usize>,
    before: &[Decided],
    decided: &Decided,
) -> Result<(), NoMemory>
    requires { IsEnded places.old.entries before.now }
    ensures ok { OnOk result (IsEnded places.new.entries (before.now ++ decided.now ∷ [])) }
    ensures stays { IsEnded places.new.entries before.now }
{
    match outcome_of(places, before, decided.tid) {
        Some(_) => Ok(()),
        None => {
            places.insert(decided.tid, before.len())?;
            Ok(())
        }
    }
}

fn note_all(places: &mut BTreeMap<Tid, usize>, outcomes: &[Decided]) -> Result<(), NoMemory>
    requires { IsEnded places.old.entries [] }
    ensures { OnOk result (IsEnded places.new.entries outcomes.now) }
{
    for place in 0..outcomes.len() {
        let (before, _) = outcomes.split_at(place);
        note(places, before, &outcomes[place])?;
    }
    Ok(())
}
