//! A map by keys in order, seen as its entries.

use crate::newest::newest_first;
use qs_base::NoMemory;
use std::alloc::Global;
use std::collections::BTreeMap;
use std::collections::btree_map::{Iter, Range};
use std::marker::Model;

/// Values by keys, in the order of the keys.
#[derive(Drop)]
pub struct Map<K: Ord, V> {
    map: BTreeMap<K, V>,
}

impl<K: Ord, V> Model for Map<K, V> {
    ghost use Rattle.std.specs.Prelude.{List};

    ghost Value = { List (K × V) };

    ghost view = { λ m. m.map.entries };
}

impl<K: Ord + Drop, V: Drop> Map<K, V> {
    ghost use Rattle.std.specs.Prelude.{◌≡◌, ◌<◌, ◌^◌, [], OnOk, OnErr, is_some, length};
    ghost use Rattle.std.specs.Map.Iter.{ShowsInOrder, deref_pair};
    ghost use Rattle.std.specs.Option.{option_copied, option_copied_mut};
    ghost use Rattle.std.specs.BTreeMap.{insert_entry, is_at};
    ghost use Rattle.std.specs.BTreeMap.Range.{IsLeBy, entries_between};
    ghost use Rattle.std.specs.declared.ops.Bound.TheVariants.{Included};
    ghost use Rattle.std.specs.Map.{keys_of, lookup, remove_entry};
    ghost use Rattle.std.specs.List.Sorted.{IsStrictlySortedBy};
    ghost use Rattle.std.specs.Borrow.{sem};
    ghost use Rattle.qs_base_map.specs.Lent.{lends_get};

    /// No entries. It takes no memory.
    pub fn new(alloc: Global) -> Map<K, V>
        ensures { result ≡ [] }
    {
        Map {
            map: BTreeMap::new(alloc),
        }
    }

    /// The value at a key.
    pub fn get(&self, key: &K) -> Option<&V>
        ensures { option_copied result ≡ lookup (is_at (K.cmp key.now)) self.now }
    {
        newest_first(&self.map, key)
    }

    /// The value at a key, which no other entry has, since the keys ascend.
    pub fn get_unique(&self, key: &K) -> Option<&V>
        ensures value { option_copied result ≡ lookup (is_at (K.cmp key.now)) self.now }
        ensures ordered { IsStrictlySortedBy K.cmp (keys_of self.now) }
    {
        // (the length tells that they ascend)
        self.map.len();
        newest_first(&self.map, key)
    }

    /// Whether there is one.
    pub fn has(&self, key: &K) -> bool
        ensures { result ≡ is_some (lookup (is_at (K.cmp key.now)) self.now) }
    {
        newest_first(&self.map, key).is_some()
    }

    /// The value at a key, for writing.
    pub fn get_mut(&mut self, key: &K) -> Option<&mut V>
        ensures* lends { sem 𝓛 (lends_get K.row V.row K.Ord self.entry key.now result) }
        ensures value { option_copied_mut result ≡ lookup (is_at (K.cmp key.now)) self.old }
    {
        self.map.get_mut(key)
    }

    /// A value at a key. After a refusal the map is as it was.
    pub fn put(&mut self, key: K, value: V) -> Result<(), NoMemory>
        ensures ok { OnOk result (self.new ≡ insert_entry K.cmp self.old key value) }
        ensures err { OnErr result (self.new ≡ self.old) }
    {
        self.map.insert(key, value)?;
        Ok(())
    }

    /// The entries in order.
    pub fn iter(&self) -> Iter<'_, K, V>
        ensures rest { result ≡ self.now }
        ensures runs { ShowsInOrder (deref_pair {K = K} {X = V}) }
        ensures fits { length self.now < 2 ^ 63 }
    {
        self.map.iter()
    }

    /// The entries from one key to another, both with it, in order. The first key is not past the last.
    pub fn between(&self, first: K, last: K) -> Range<'_, K, V>
        requires { IsLeBy K.cmp first last }
        ensures rest { result ≡ entries_between K.cmp (Included first) (Included last) self.now }
        ensures runs { ShowsInOrder (deref_pair {K = K} {X = V}) }
        ensures fits { length result < 2 ^ 63 }
    {
        self.map.range(first..=last)
    }

    /// Nothing at a key. It takes no memory.
    pub fn remove(&mut self, key: &K)
        ensures { self.new ≡ remove_entry (is_at (K.cmp key.now)) self.old }
    {
        self.map.remove(key);
    }
}
