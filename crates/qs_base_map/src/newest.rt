//! A look-up in an ordered map that asks its last entry first.
ghost use Rattle.std.specs.Prelude.{◌≡◌, IfSome, Some};
ghost use Rattle.std.specs.Option.{option_copied};
ghost use Rattle.std.specs.BTreeMap.{get_by};

use std::alloc::Allocator;
use std::cmp::Ordering;
use std::collections::BTreeMap;

/// The value at a key. The last entry is asked first, since most look-ups are for the transaction that began last: the rest
/// is searched only for a key before it.
pub fn newest_first<'a, K: Ord, V, A: Allocator>(
    map: &'a BTreeMap<K, V, A>,
    key: &K,
) -> Option<&'a V>
    ensures { option_copied result ≡ get_by (K.cmp key.now) map.now }
{
    let (last, value) = map.last_key_value()?;
    match key.cmp(last) {
        Ordering::Less => map.get(key),
        Ordering::Equal => Some(value),
        Ordering::Greater => None,
    }
}
