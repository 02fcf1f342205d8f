//! Names that are claimed: pending for another transaction that voted volatile.
ghost use Rattle.std.specs.Prelude.{◌≡◌, Some};
ghost use Rattle.std.specs.List.{list_any};
ghost use Rattle.qs_ops.specs.Table.{is_claim};
ghost use Rattle.qs_ops_shelf.specs.Claims.{is_voter, holders_of};
ghost use Rattle.qs_ops_shelf.specs.Slots.{Follows};

use crate::slot::ShelfText;
use crate::slots::ShelfTexts;
use qs_base::{Bytes, Tid};
use qs_ops_shares::Shares;

/// Whether another transaction that voted volatile has the name pending. It looks at those alone
/// that have the name pending.
pub fn is_claimed(slots: &ShelfTexts, shares: &Shares, me: Tid, name: &Bytes) -> bool
    requires { Follows slots.now.names.entries shares.now }
    ensures { result ≡ list_any (is_claim me name.now) shares.now }
{
    shares.in_order();
    match slots.names.get(name) {
        Some(slot) => has_voter(slot, shares, me),
        None => false,
    }
}

/// Whether another transaction that has a text pending here voted volatile.
fn has_voter(slot: &ShelfText, shares: &Shares, me: Tid) -> bool
    ensures { result ≡ list_any (is_voter me shares.now) (holders_of (Some slot.now)) }
{
    slot.pending.keys().any(|tid| is_voter(shares, me, *tid))
}

/// Whether it is another transaction, and voted volatile.
fn is_voter(shares: &Shares, me: Tid, tid: Tid) -> bool
    ensures { result ≡ is_voter me shares.now tid }
{
    me != tid && shares.has_voted(tid)
}
