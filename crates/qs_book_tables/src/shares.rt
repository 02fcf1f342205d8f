//! What the transactions hold.
ghost use Rattle.std.specs.Prelude.{◌≡◌, ◌<◌, ◌++◌, OnOk, OnErr};
ghost use Rattle.std.specs.BTreeMap.{insert_entry, IsOrdered};
ghost use Rattle.qs_base.specs.Order.{tid_cmp};
ghost use Rattle.qs_ops.specs.declared.reply.Reply.TheVariants.{Done};
ghost use Rattle.qs_ops.specs.Table.{nothing_held, change_by, after_serve};
ghost use Rattle.qs_book_tables.specs.Held.{share_in};

use qs_base::{Copied, List, NoMemory, Tid};
use qs_ops::{Op, Reply, Share, is_change};
use std::alloc::Global;
use std::collections::BTreeMap;

/// Nothing held.
fn empty_share(alloc: Global) -> Share
    ensures { result ≡ nothing_held }
{
    Share {
        changes: List::new(alloc),
        reads: List::new(alloc),
        operations: 0,
        voted: false,
    }
}

/// Adds an operation that was done to the pending changes, where it is a change.
fn add_change(share: &mut Share, op: &Op) -> Result<(), NoMemory>
    ensures ok { OnOk result (share.new ≡ record share.old { changes = share.old.changes ++ change_by op.now Done }) }
    ensures err { OnErr result (share.new ≡ share.old) }
{
    if is_change(op) {
        share.changes.push(op.copy()?)?;
    }
    Ok(())
}

/// What serving an operation with this reply adds to a share. After a refusal it is as it was.
fn serve_share(share: &mut Share, op: &Op, reply: &Reply) -> Result<(), NoMemory>
    ensures ok { OnOk result (share.new ≡ after_serve share.old op.now reply.now) }
    ensures err { OnErr result (share.new ≡ share.old) }
{
    if let Reply::TooMany = reply {
        return Ok(());
    }
    let Some(operations) = share.operations.checked_add(1) else {
        return Err(NoMemory);
    };
    match (op, reply) {
        (_, Reply::Done) => add_change(share, op)?,
        (Op::Get { name }, Reply::Absent | Reply::Value { .. }) => share.reads.push(name.copy()?)?,
        _ => {}
    }
    share.operations = operations;
    Ok(())
}

/// What serving an operation with this reply adds to what a transaction holds. After a refusal
/// all hold what they did.
pub fn serve(
    alloc: Global,
    shares: &mut BTreeMap<Tid, Share>,
    tid: Tid,
    op: &Op,
    reply: &Reply,
) -> Result<(), NoMemory>
    ensures ok { OnOk result (shares.new.entries ≡ insert_entry tid_cmp shares.old.entries tid (after_serve (share_in shares.old.entries tid) op.now reply.now)) }
    ensures err { OnErr result (shares.new.entries ≡ shares.old.entries) }
    ensures ordered { IsOrdered tid_cmp shares.old }
{
    match shares.get_mut(&tid) {
        Some(share) => serve_share(share, op, reply),
        None => {
            let mut share = empty_share(alloc);
            match serve_share(&mut share, op, reply) {
                Ok(()) => {
                    drop(shares.insert(tid, share)?);
                    Ok(())
                }
                Err(refused) => {
                    drop(share);
                    Err(refused)
                }
            }
        }
    }
}

/// The pending changes of a transaction.
pub fn changes_of(shares: &BTreeMap<Tid, Share>, tid: Tid) -> &[Op]
    ensures { result.now ≡ (share_in shares.now.entries tid).changes }
{
    match shares.get(&tid) {
        Some(share) => share.changes.as_slice(),
        None => &[],
    }
}

/// Keeps whether a transaction's last vote is volatile. After a refusal all hold what they did.
pub fn set_vote(
    alloc: Global,
    shares: &mut BTreeMap<Tid, Share>,
    tid: Tid,
    voted: bool,
) -> Result<(), NoMemory>
    ensures ok { OnOk result (shares.new.entries ≡ insert_entry tid_cmp shares.old.entries tid (record (share_in shares.old.entries tid) { voted = voted })) }
    ensures err { OnErr result (shares.new.entries ≡ shares.old.entries) }
    ensures ordered { IsOrdered tid_cmp shares.old }
{
    match shares.get_mut(&tid) {
        Some(share) => {
            share.voted = voted;
            Ok(())
        }
        None => {
            let mut share = empty_share(alloc);
            share.voted = voted;
            drop(shares.insert(tid, share)?);
            Ok(())
        }
    }
}

/// Whether a transaction's last vote is volatile.
pub fn is_voted(shares: &BTreeMap<Tid, Share>, tid: Tid) -> bool
    ensures { result ≡ (share_in shares.now.entries tid).voted }
{
    match shares.get(&tid) {
        Some(share) => share.voted,
        None => false,
    }
}
