//! A list with room for more.
ghost use Rattle.std.specs.Prelude.{◌≡◌, ◌<◌, ◌≤◌, ◌+◌, ◌++◌, ◌∷◌, [], OnOk};

use qs_base::{List, NoMemory};
use std::alloc::Global;
use std::marker::Model;

/// How many times what it holds a list grows by.
const GROWTH: usize = 3;

/// How many items a list has room for from the first on.
const FIRST_ROOM: usize = 4096;

/// A list that grows at its end, with room that was made before.
#[derive(Drop)]
pub struct Tape<T> {
    items: Vec<T>,
}

impl<T> Model for Tape<T> {
    ghost use Rattle.std.specs.Prelude.{◌-◌};
    ghost use Rattle.std.specs.Vec.{vec_capacity, vec_len};
    ghost use Rattle.qs_cell_chronicle.specs.Tape.{TapeValue};

    ghost Value = { TapeValue T };

    ghost view = { λ t. record { items = t.items.items; spare = vec_capacity t.items - vec_len t.items } };
}

impl<T: Drop> Tape<T> {
    /// The empty list, with no room. It takes no memory.
    pub fn new(alloc: Global) -> Tape<T>
        ensures { result.items ≡ [] }
    {
        Tape {
            items: Vec::new(alloc),
        }
    }

    /// The items in order.
    pub fn items(&self) -> &[T]
        ensures { result.now ≡ self.now.items }
    {
        self.items.as_slice()
    }

    /// The items in order, by value. It takes no memory.
    pub fn into_list(self) -> List<T>
        ensures { result ≡ self.items }
    {
        List::from_vec(self.items)
    }

    /// Room for so many more. Where there is less it grows by several times what it holds, since a long list is dear to move.
    pub fn make_room(&mut self, more: usize) -> Result<(), NoMemory>
        ensures items { self.new.items ≡ self.old.items }
        ensures ok { OnOk result (more ≤ self.new.spare) }
        ensures kept { self.old.spare ≤ self.new.spare }
    {
        let count = self.items.len();
        if self.items.capacity().saturating_sub(count) < more {
            let room = count.saturating_mul(GROWTH).max(FIRST_ROOM);
            self.items.reserve(room.max(more))?;
        }
        Ok(())
    }

    /// One more, for which there is room. It takes no memory.
    pub fn push(&mut self, item: T)
        requires room { 0 < self.old.spare }
        ensures items { self.new.items ≡ self.old.items ++ item ∷ [] }
        ensures spare { self.old.spare ≤ self.new.spare + 1 }
    {
        self.items.push_reserved(item);
    }
}
