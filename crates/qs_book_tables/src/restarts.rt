//! What transactions hold after a restart: the changes that a log kept, and their locks.
ghost use Rattle.std.specs.Prelude.{◌≡◌, List, IfOk, OnOk};
ghost use Rattle.std.specs.BTreeMap.{IsOrdered};
ghost use Rattle.qs_base.specs.Order.{tid_cmp};
ghost use Rattle.qs_book_tables.specs.Held.{FollowShares};
ghost use Rattle.qs_book_tables.specs.Restarts.{kept_share, keep_share, kept_shares};

use crate::locks::Locks;
use crate::serving::release_share;
use qs_base::{List, NoMemory, Tid};
use qs_ops::{KeptChanges, Share};
use std::alloc::Global;
use std::collections::BTreeMap;

/// What a transaction holds whose changes are kept. A count of changes that passes a `u32` is a
/// refusal of memory too.
fn kept_share(alloc: Global, kept: &KeptChanges) -> Result<Share, NoMemory>
    ensures { IfOk result (λ share. share ≡ kept_share kept.now) }
{
    let Ok(operations) = u32::try_from(kept.changes.len()) else {
        return Err(NoMemory);
    };
    Ok(Share {
        changes: kept.changes.copy()?,
        reads: List::new(alloc),
        operations,
        voted: false,
    })
}

/// The changes are pending again, with their locks, in place of what the transaction held.
fn keep(
    alloc: Global,
    locks: &mut Locks,
    shares: &mut BTreeMap<Tid, Share>,
    kept: &KeptChanges,
) -> Result<(), NoMemory>
    requires follows { FollowShares locks.old shares.old.entries }
    requires ordered { IsOrdered tid_cmp shares.old }
    ensures value { OnOk result (shares.new.entries ≡ keep_share shares.old.entries kept.now) }
    ensures follows { OnOk result (FollowShares locks.new shares.new.entries) }
    ensures ordered { OnOk result (IsOrdered tid_cmp shares.new) }
{
    drop(release_share(locks, shares, kept.tid));
    locks.keep(kept.tid, kept.changes.as_slice())?;
    let share = kept_share(alloc, kept)?;
    drop(shares.insert(kept.tid, share)?);
    Ok(())
}

/// What the transactions hold once these changes are pending again, and the locks of it.
pub fn keep_all(
    alloc: Global,
    keeps: &[KeptChanges],
) -> Result<(Locks, BTreeMap<Tid, Share>), NoMemory>
    ensures value { IfOk result (λ held. held.1.entries ≡ kept_shares keeps.now) }
    ensures follows { IfOk result (λ held. FollowShares held.0 held.1.entries) }
{
    let mut locks = Locks::new(alloc);
    let mut shares = BTreeMap::new(alloc);
    for kept in keeps {
        if let Err(refused) = keep(alloc, &mut locks, &mut shares, kept) {
            drop(locks);
            drop(shares);
            return Err(refused);
        }
    }
    Ok((locks, shares))
}
