//! A list that only grows, and can go back to what it was at the last `accept`, with no memory.

use qs_base::{List, NoMemory};
use std::marker::Model;

/// Items as they are, of which the first `mark` were there at the last `accept`.
#[derive(Drop)]
pub struct Grown<T> {
    items: List<T>,
    mark: usize,
}

impl<T> Model for Grown<T> {
    ghost use Rattle.std.specs.Prelude.{◌≤◌, length, take};
    ghost use Rattle.qs_node_kept.specs.Ledger.{LedgerValue};

    ghost Value = { LedgerValue T };

    ghost view = { λ g. record { now = g.items; saved = take g.mark g.items } };

    ghost invariant = { λ g. g.mark ≤ length g.items };
}

impl<T: Drop> Grown<T> {
    ghost use Rattle.std.specs.Prelude.{◌≡◌, ◌++◌, ◌∷◌, [], OnOk, OnErr};

    /// These items, all accepted. It takes no memory.
    pub fn new(items: List<T>) -> Grown<T>
        ensures { result ≡ record { now = items; saved = items } }
    {
        let mark = items.len();
        Grown { items, mark }
    }

    /// The items as they are.
    pub fn items(&self) -> &[T]
        ensures { result.now ≡ self.now.now }
    {
        self.items.as_slice()
    }

    /// One more item. After a refusal all is as it was.
    pub fn push(&mut self, item: T) -> Result<(), NoMemory>
        ensures ok { OnOk result (self.new ≡ record self.old { now = self.old.now ++ item ∷ [] }) }
        ensures err { OnErr result (self.new ≡ self.old) }
    {
        self.items.push(item)
    }

    /// What it is counts from now on. It takes no memory.
    pub fn accept(&mut self)
        ensures { self.new ≡ record self.old { saved = self.old.now } }
    {
        self.mark = self.items.len();
    }

    /// The items as they were at the last `accept`. It takes no memory.
    pub fn restore(self) -> List<T>
        ensures { result ≡ self.saved }
    {
        let Grown { items, mark } = self;
        let mut items = items;
        items.truncate(mark);
        items
    }
}
