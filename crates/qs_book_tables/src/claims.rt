//! Names that are taken: bound, or pending for another transaction that voted volatile.
ghost use Rattle.std.specs.Prelude.{◌≡◌, Bool, Option, ◌&&◌, not};
ghost use Rattle.std.specs.List.{list_any};
ghost use Rattle.std.specs.Option.{option_copied};
ghost use Rattle.qs_base.specs.Order.{same_tid};
ghost use Rattle.qs_book_tables.specs.Held.{share_in, FollowShares};
ghost use Rattle.qs_ops.specs.Table.{is_claim, lesser};

use crate::locks::Locks;
use crate::shares::is_voted;
use qs_base::{Bytes, Tid};
use qs_ops::Share;
use std::cmp::Ordering;
use std::collections::{BTreeMap, BTreeSet};

/// Whether another of these transactions voted volatile.
fn has_voter(tids: &BTreeSet<Tid>, shares: &BTreeMap<Tid, Share>, me: Tid) -> bool
    ensures { result ≡ list_any (λ t. not (same_tid me t) && (share_in shares.now.entries t).voted) tids.now.keys }
{
    for held in tids {
        if *held != me && is_voted(shares, *held) {
            return true;
        }
    }
    false
}

/// Whether another transaction that voted volatile has that name pending. It looks at those alone
/// that have the name pending.
pub fn is_claimed(locks: &Locks, shares: &BTreeMap<Tid, Share>, me: Tid, name: &Bytes) -> bool
    requires { FollowShares locks.now shares.now.entries }
    ensures { result ≡ list_any (is_claim me name.now) shares.now.entries }
{
    match locks.changers.tids(name) {
        // Where nobody holds anything, nobody claims; and `len` tells that shares are in order.
        Some(tids) => shares.len() != 0 && has_voter(tids, shares, me),
        None => false,
    }
}

/// The lesser of two names.
pub fn lesser<'a>(name: Option<&'a Bytes>, other: Option<&'a Bytes>) -> Option<&'a Bytes>
    ensures { option_copied result ≡ lesser (option_copied name.entry) (option_copied other.entry) }
{
    match (name, other) {
        (None, other) => other,
        (name, None) => name,
        (Some(name), Some(other)) => match name.cmp(other) {
            Ordering::Less | Ordering::Equal => Some(name),
            Ordering::Greater => Some(other),
        },
    }
}
