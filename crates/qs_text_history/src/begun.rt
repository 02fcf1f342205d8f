//! The transactions that were begun under labels.
ghost use Rattle.std.specs.Prelude.{◌≡◌, List, ℕ, None, Some, false, ◌||◌, OnOk, IfOk, Option};
ghost use Rattle.std.specs.List.{list_any};
ghost use Rattle.std.specs.BTreeMap.{is_at};
ghost use Rattle.std.specs.Map.{lookup};
ghost use Rattle.qs_base.specs.Order.{same_tid, tid_cmp, bytes_cmp};
ghost use Rattle.qs_base.specs.declared.identifiers.Tid.{Tid};
ghost use Rattle.qs_text_history.specs.Begun.{or_else, begun_with};
ghost use Rattle.qs_text_history.specs.Inner.Begun.{label_in, tid_in, holder_by, unbegun};

use crate::identifiers::tid_of;
use qs_base::{Bytes, Copied, NoMemory, Tid};
use std::alloc::Global;
use std::collections::{BTreeMap, BTreeSet};
use std::marker::Model;

/// The transactions that were begun under labels. A label stands for the transaction of the first
/// begin that has it.
#[derive(Drop)]
pub struct BegunLabels {
    labels: BTreeMap<Bytes, Tid>,
    tids: BTreeSet<Tid>,
}

impl Model for BegunLabels {
    ghost use Rattle.qs_text_history.specs.Inner.Begun.{BegunValue};

    ghost Value = { BegunValue };

    ghost view = { λ b. record { labels = b.labels.entries; tids = b.tids.keys } };
}

impl BegunLabels {
    /// Before the first begin. It takes no memory.
    pub fn new(alloc: Global) -> BegunLabels
        ensures labels { (label : List ℕ) → label_in result label ≡ None }
        ensures tids { (tid : Tid) → tid_in result tid ≡ false }
    {
        BegunLabels {
            labels: BTreeMap::new(alloc),
            tids: BTreeSet::new(alloc),
        }
    }

    /// The transaction that a busy answer names by this word: that of this label, or else that of
    /// this identifier where it was not begun under a label.
    #[tactic(auto, unfolding(crate::specs::Inner::Begun::holder_by))]
    pub fn holder(&self, alloc: Global, word: &[u8]) -> Result<Option<Tid>, NoMemory>
        ensures { IfOk result (λ holder. holder ≡ holder_by self.now word.now) }
    {
        let label = Bytes::from_slice(alloc, word)?;
        Ok(match self.labelled(&label) {
            Some(tid) => Some(tid),
            None => self.unbegun(tid_of(word)),
        })
    }

    /// The transaction of this label.
    fn labelled(&self, label: &Bytes) -> Option<Tid>
        ensures { result ≡ label_in self.now label.now }
    {
        self.labels.get(label).copied()
    }

    /// The transaction, where it was not begun.
    fn unbegun(&self, tid: Option<Tid>) -> Option<Tid>
        ensures { result ≡ unbegun (tid_in self.now) tid }
    {
        let tid = tid?;
        if self.has(&tid) { None } else { Some(tid) }
    }

    /// Whether the transaction was begun.
    fn has(&self, tid: &Tid) -> bool
        ensures { result ≡ tid_in self.now tid.now }
    {
        self.tids.contains(tid)
    }

    /// Takes in that the transaction was begun under this label.
    pub fn add(&mut self, label: &Bytes, tid: Tid) -> Result<(), NoMemory>
        ensures labels { OnOk result ((other : List ℕ) → label_in self.new other ≡ or_else (label_in self.old other) (begun_with label.now tid other)) }
        ensures tids { OnOk result ((other : Tid) → tid_in self.new other ≡ (tid_in self.old other || same_tid tid other)) }
    {
        put_tid(&mut self.tids, tid)?;
        put_label(&mut self.labels, label, tid)
    }
}

/// Puts the transaction into the set.
fn put_tid(tids: &mut BTreeSet<Tid>, tid: Tid) -> Result<(), NoMemory>
    ensures { OnOk result ((other : Tid) → list_any (is_at (tid_cmp other)) tids.new.keys ≡ (list_any (is_at (tid_cmp other)) tids.old.keys || same_tid tid other)) }
{
    tids.insert(tid)?;
    Ok(())
}

/// Lets the label stand for the transaction, unless it stands for one.
fn put_label(labels: &mut BTreeMap<Bytes, Tid>, label: &Bytes, tid: Tid) -> Result<(), NoMemory>
    ensures { OnOk result ((other : List ℕ) → lookup (is_at (bytes_cmp other)) labels.new.entries ≡ or_else (lookup (is_at (bytes_cmp other)) labels.old.entries) (begun_with label.now tid other)) }
{
    if labels.contains_key(label) {
        return Ok(());
    }
    labels.insert(label.copy()?, tid)?;
    Ok(())
}
