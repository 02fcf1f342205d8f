//! What the transactions hold, with the locks that follow it.
ghost use Rattle.std.specs.Prelude.{◌≡◌, None, OnOk, OnErr};
ghost use Rattle.std.specs.Map.{lookup, remove_entry};
ghost use Rattle.std.specs.BTreeMap.{insert_entry, is_at};
ghost use Rattle.qs_base.specs.Order.{tid_cmp};
ghost use Rattle.qs_ops.specs.Table.{after_serve};
ghost use Rattle.qs_book_tables.specs.Held.{share_in, FollowShares};

use crate::locks::Locks;
use crate::shares::{serve, set_vote};
use qs_base::{NoMemory, Tid};
use qs_ops::{Op, Reply, Share};
use std::alloc::Global;
use std::collections::BTreeMap;

/// Serves an operation with this reply, and takes the lock that it makes. After a refusal all
/// hold what they did.
pub fn serve_locked(
    alloc: Global,
    locks: &mut Locks,
    shares: &mut BTreeMap<Tid, Share>,
    tid: Tid,
    op: &Op,
    reply: &Reply,
) -> Result<(), NoMemory>
    requires follows { FollowShares locks.old shares.old.entries }
    ensures ok { OnOk result (shares.new.entries ≡ insert_entry tid_cmp shares.old.entries tid (after_serve (share_in shares.old.entries tid) op.now reply.now)) }
    ensures err { OnErr result (shares.new.entries ≡ shares.old.entries) }
    ensures follows { FollowShares locks.new shares.new.entries }
{
    let fresh = locks.add(tid, op, reply)?;
    match serve(alloc, shares, tid, op, reply) {
        Ok(()) => Ok(()),
        Err(refused) => {
            if fresh {
                locks.remove(tid, op, reply);
            }
            Err(refused)
        }
    }
}

/// Takes out what a transaction holds, and gives its locks back. It takes no memory.
pub fn release_share(
    locks: &mut Locks,
    shares: &mut BTreeMap<Tid, Share>,
    tid: Tid,
) -> Option<Share>
    requires follows { FollowShares locks.old shares.old.entries }
    ensures value { result ≡ lookup (is_at (tid_cmp tid)) shares.old.entries }
    ensures shares { shares.new.entries ≡ remove_entry (is_at (tid_cmp tid)) shares.old.entries }
    ensures gone { lookup (is_at (tid_cmp tid)) shares.new.entries ≡ None }
    ensures follows { FollowShares locks.new shares.new.entries }
{
    let share = shares.remove(&tid)?;
    locks.release(tid, &share);
    Some(share)
}

/// Keeps whether a transaction's last vote is volatile; it has the locks that it had. After a
/// refusal all hold what they did.
pub fn vote_locked(
    alloc: Global,
    locks: &Locks,
    shares: &mut BTreeMap<Tid, Share>,
    tid: Tid,
    voted: bool,
) -> Result<(), NoMemory>
    requires follows { FollowShares locks.now shares.old.entries }
    ensures ok { OnOk result (shares.new.entries ≡ insert_entry tid_cmp shares.old.entries tid (record (share_in shares.old.entries tid) { voted = voted })) }
    ensures err { OnErr result (shares.new.entries ≡ shares.old.entries) }
    ensures follows { FollowShares locks.now shares.new.entries }
{
    // Only the contract speaks of the locks.
    let _ = locks;
    set_vote(alloc, shares, tid, voted)
}
