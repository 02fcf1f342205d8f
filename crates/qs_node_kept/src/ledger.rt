//! A list whose items change, and that can go back to what it was at the last `accept`, with no memory.
ghost use Rattle.std.specs.Prelude.{◌≡◌, ◌<◌, length, slice_set};
ghost use Rattle.qs_node_kept.specs.Ledger.{undone, IsBelow};

use qs_base::{List, NoMemory};
use std::alloc::Global;
use std::marker::Model;

/// Items as they are, and as they were at the last `accept`.
#[derive(Drop)]
pub struct Ledger<T: Copy> {
    items: Vec<T>,
    mark: usize,
    undo: Vec<(usize, T)>,
}

impl<T: Copy> Model for Ledger<T> {
    ghost use Rattle.std.specs.Prelude.{◌≤◌, length};
    ghost use Rattle.qs_node_kept.specs.Ledger.{LedgerValue, IsBelow, restored};

    ghost Value = { LedgerValue T };

    ghost view = { λ l. record { now = l.items.items; saved = restored l.mark l.undo.items l.items.items } };

    ghost invariant = { λ l. IsBelow (length l.items.items) l.undo.items × l.mark ≤ length l.items.items };
}

impl<T: Copy> Ledger<T> {
    ghost use Rattle.std.specs.Prelude.{◌≡◌, ◌<◌, ◌++◌, ◌∷◌, [], OnOk, OnErr, length, slice_set};

    /// These items, all accepted. It takes no memory.
    pub fn new(alloc: Global, items: List<T>) -> Ledger<T>
        ensures { result ≡ record { now = items; saved = items } }
    {
        let mark = items.len();
        Ledger {
            items: items.into_vec(),
            mark,
            undo: Vec::new(alloc),
        }
    }

    /// The items as they are.
    pub fn items(&self) -> &[T]
        ensures { result.now ≡ self.now.now }
    {
        self.items.as_slice()
    }

    /// One more item.
    pub fn push(&mut self, item: T) -> Result<(), NoMemory>
        ensures ok { OnOk result (self.new ≡ record self.old { now = self.old.now ++ item ∷ [] }) }
        ensures err { OnErr result (self.new ≡ self.old) }
    {
        self.items.push(item)?;
        Ok(())
    }

    /// Another item in a place. It takes the memory that going back needs.
    pub fn set(&mut self, place: usize, item: T) -> Result<(), NoMemory>
        requires { place < length self.old.now }
        ensures ok { OnOk result (self.new ≡ record self.old { now = slice_set self.old.now place item }) }
        ensures err { OnErr result (self.new ≡ self.old) }
    {
        let old = self.items[place];
        self.undo.push((place, old))?;
        self.items[place] = item;
        Ok(())
    }

    /// What it is counts from now on. It takes no memory.
    pub fn accept(&mut self)
        ensures { self.new ≡ record self.old { saved = self.old.now } }
    {
        self.undo.clear();
        self.mark = self.items.len();
    }

    /// The items as they were at the last `accept`. It takes no memory.
    pub fn restore(self) -> List<T>
        ensures { result ≡ self.saved }
    {
        let Ledger { items, mark, undo } = self;
        let mut items = items;
        let mut undo = undo;
        go_back(&mut items, &mut undo);
        items.truncate(mark);
        List::from_vec(items)
    }
}

/// The places have what they had again, the last change first.
fn go_back<T: Copy>(items: &mut Vec<T>, undo: &mut Vec<(usize, T)>)
    requires { IsBelow (length items.old.items) undo.old.items }
    ensures { items.new.items ≡ undone undo.old.items items.old.items }
{
    while let Some(change) = undo.pop() {
        put_back(items, change);
    }
}

fn put_back<T: Copy>(items: &mut Vec<T>, change: (usize, T))
    requires { change.0 < length items.old.items }
    ensures { items.new.items ≡ slice_set items.old.items change.0 change.1 }
{
    items[change.0] = change.1;
}
