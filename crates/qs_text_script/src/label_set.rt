//! Sets of labels.
ghost use Rattle.std.specs.Prelude.{◌≡◌, List, ℕ, false, ◌||◌, OnOk};
ghost use Rattle.qs_base.specs.Order.{same_bytes};
ghost use Rattle.qs_text_script.specs.Labels.{has_label};

use qs_base::{Bytes, Copied, NoMemory};
use std::alloc::Global;
use std::collections::BTreeSet;
use std::marker::Model;

/// A set of labels, seen as the list of them.
#[derive(Drop)]
pub struct LabelSet {
    labels: BTreeSet<Bytes>,
}

impl Model for LabelSet {
    ghost use Rattle.std.specs.Prelude.{List, ℕ};

    ghost Value = { List (List ℕ) };

    ghost view = { λ s. s.labels.keys };
}

impl LabelSet {
    /// The empty set. It takes no memory.
    pub fn new(alloc: Global) -> LabelSet
        ensures { (label : List ℕ) → has_label label result ≡ false }
    {
        LabelSet {
            labels: BTreeSet::new(alloc),
        }
    }

    /// Whether the label is in the set.
    pub fn has(&self, label: &Bytes) -> bool
        ensures { result ≡ has_label label.now self.now }
    {
        self.labels.contains(label)
    }

    /// Puts the label into the set.
    pub fn add(&mut self, label: &Bytes) -> Result<(), NoMemory>
        ensures { OnOk result ((other : List ℕ) → has_label other self.new ≡ (has_label other self.old || same_bytes label.now other)) }
    {
        self.labels.insert(label.copy()?)?;
        Ok(())
    }
}
