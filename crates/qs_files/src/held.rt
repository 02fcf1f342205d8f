//! What stands under names, together with what the transactions hold.
ghost use Rattle.std.specs.Prelude.{◌≡◌, ◌+◌, ◌<◌, ◌^◌, true, false, Some, None, IfOk, OnOk, OnErr, if◌then◌else◌};
ghost use Rattle.std.specs.List.{fold};
ghost use Rattle.std.specs.Map.{remove_entry};
ghost use Rattle.std.specs.Option.{option_copied};
ghost use Rattle.std.specs.BTreeMap.{insert_entry, is_at};
ghost use Rattle.qs_base.specs.Order.{tid_cmp};
ghost use Rattle.qs_ops.specs.Table.{apply_change, after_serve};
ghost use Rattle.qs_ops_shares.specs.Shares.{share_in, kept_share};
ghost use Rattle.qs_files_contents.specs.Slots.{files_in};
ghost use Rattle.qs_files.specs.Held.{Follows, AreCounted, read_name, is_changing, is_file_op};

use qs_base::{Bytes, List, NoMemory, Tid};
use qs_files_contents::{FileTexts, prepare};
use qs_ops::{Changes, Op, Reply, Share};
use qs_ops_shares::Shares;
use std::alloc::Global;

/// A text has fewer pieces than this, and so there are fewer changes, committed and pending.
const CHANGES: usize = 1 << 63;

/// How many changes were committed, and how many are pending.
#[derive(Clone, Copy)]
pub struct ChangeCounts {
    pub committed: usize,
    pub pending: usize,
}

impl ChangeCounts {
    /// With so many pending changes more; a count past its end is a refusal of memory.
    fn with(self, more: usize) -> Result<ChangeCounts, NoMemory>
        ensures { IfOk result (λ counts. (counts.committed ≡ self.committed) × ((counts.pending ≡ self.pending + more) × (counts.committed + counts.pending < 2 ^ 63))) }
    {
        let Some(pending) = self.pending.checked_add(more) else {
            return Err(NoMemory);
        };
        match self.committed.checked_add(pending) {
            Some(all) if all < CHANGES => Ok(ChangeCounts { pending, ..self }),
            _ => Err(NoMemory),
        }
    }
}

/// The transaction holds nothing any more; where it commits, what it had pending is committed. It
/// takes no memory.
pub fn end(
    slots: &mut FileTexts,
    shares: &mut Shares,
    counts: &mut ChangeCounts,
    tid: Tid,
    commits: bool,
) -> Share
    requires follows { Follows slots.old shares.old counts.old.committed }
    requires counted { AreCounted shares.old counts.old.pending counts.old.committed }
    ensures share { result ≡ share_in shares.old tid }
    ensures shares { shares.new ≡ remove_entry (is_at (tid_cmp tid)) shares.old }
    ensures files { files_in slots.new ≡ (if commits then fold apply_change (files_in slots.old) (share_in shares.old tid).changes else files_in slots.old) }
    ensures follows { Follows slots.new shares.new counts.new.committed }
    ensures counted { AreCounted shares.new counts.new.pending counts.new.committed }
{
    let share = shares.release(tid);
    let changes = share.changes.as_slice();
    slots.end_all(changes, tid, commits);
    slots.unread_all(share.reads.as_slice(), tid);
    counts.pending -= changes.len();
    if commits {
        counts.committed += changes.len();
    }
    share
}

/// Takes in an operation that was served with this reply. After a refusal all is as it was.
pub fn serve(
    alloc: Global,
    slots: &mut FileTexts,
    shares: &mut Shares,
    counts: &mut ChangeCounts,
    tid: Tid,
    op: &Op,
    reply: &Reply,
) -> Result<(), NoMemory>
    requires own { is_file_op op.now ≡ true }
    requires follows { Follows slots.old shares.old counts.old.committed }
    requires counted { AreCounted shares.old counts.old.pending counts.old.committed }
    ensures shares { OnOk result (shares.new ≡ insert_entry tid_cmp shares.old tid (after_serve (share_in shares.old tid) op.now reply.now)) }
    ensures same { OnErr result (shares.new ≡ shares.old) }
    ensures files { files_in slots.new ≡ files_in slots.old }
    ensures follows { Follows slots.new shares.new counts.new.committed }
    ensures counted { AreCounted shares.new counts.new.pending counts.new.committed }
{
    if let Some(name) = read_name(op, reply) {
        return serve_read(slots, shares, counts, tid, op, reply, name);
    }
    if is_changing(op, reply) {
        return serve_change(alloc, slots, shares, counts, tid, op, reply);
    }
    serve_plain(slots, shares, counts, tid, op, reply)
}

/// The name that an operation with this reply read.
fn read_name<'a>(op: &'a Op, reply: &Reply) -> Option<&'a Bytes>
    ensures { option_copied result ≡ read_name op.now reply.now }
{
    match (op, reply) {
        (Op::Get { name }, Reply::Absent | Reply::Value { .. }) => Some(name),
        _ => None,
    }
}

/// Whether an operation with this reply is a pending change.
fn is_changing(op: &Op, reply: &Reply) -> bool
    ensures { result ≡ is_changing op.now reply.now }
{
    match (op, reply) {
        (Op::Put { .. } | Op::Append { .. } | Op::Del { .. }, Reply::Done) => true,
        _ => false,
    }
}

/// The same for an operation that neither changes nor reads a file.
fn serve_plain(
    slots: &FileTexts,
    shares: &mut Shares,
    counts: &ChangeCounts,
    tid: Tid,
    op: &Op,
    reply: &Reply,
) -> Result<(), NoMemory>
    requires own { is_file_op op.now ≡ true }
    requires reads { read_name op.now reply.now ≡ None }
    requires changes { is_changing op.now reply.now ≡ false }
    requires follows { Follows slots.now shares.old counts.now.committed }
    requires counted { AreCounted shares.old counts.now.pending counts.now.committed }
    ensures shares { OnOk result (shares.new ≡ insert_entry tid_cmp shares.old tid (after_serve (share_in shares.old tid) op.now reply.now)) }
    ensures same { OnErr result (shares.new ≡ shares.old) }
    ensures follows { Follows slots.now shares.new counts.now.committed }
    ensures counted { AreCounted shares.new counts.now.pending counts.now.committed }
{
    let _ = slots;
    let _ = counts;
    shares.serve(tid, op, reply)?;
    Ok(())
}

/// The same for an operation that read the text under the name.
fn serve_read(
    slots: &mut FileTexts,
    shares: &mut Shares,
    counts: &ChangeCounts,
    tid: Tid,
    op: &Op,
    reply: &Reply,
    name: &Bytes,
) -> Result<(), NoMemory>
    requires reads { read_name op.now reply.now ≡ Some name.now }
    requires follows { Follows slots.old shares.old counts.now.committed }
    requires counted { AreCounted shares.old counts.now.pending counts.now.committed }
    ensures shares { OnOk result (shares.new ≡ insert_entry tid_cmp shares.old tid (after_serve (share_in shares.old tid) op.now reply.now)) }
    ensures same { OnErr result (shares.new ≡ shares.old) }
    ensures files { files_in slots.new ≡ files_in slots.old }
    ensures follows { Follows slots.new shares.new counts.now.committed }
    ensures counted { AreCounted shares.new counts.now.pending counts.now.committed }
{
    let _ = counts;
    let before = slots.read(name, tid)?;
    match shares.serve(tid, op, reply) {
        Ok(()) => Ok(()),
        Err(refused) => {
            if !before {
                slots.unread(name, tid);
            }
            Err(refused)
        }
    }
}

/// The same for a change.
fn serve_change(
    alloc: Global,
    slots: &mut FileTexts,
    shares: &mut Shares,
    counts: &mut ChangeCounts,
    tid: Tid,
    op: &Op,
    reply: &Reply,
) -> Result<(), NoMemory>
    requires changes { is_changing op.now reply.now ≡ true }
    requires follows { Follows slots.old shares.old counts.old.committed }
    requires counted { AreCounted shares.old counts.old.pending counts.old.committed }
    ensures shares { OnOk result (shares.new ≡ insert_entry tid_cmp shares.old tid (after_serve (share_in shares.old tid) op.now reply.now)) }
    ensures same { OnErr result (shares.new ≡ shares.old) }
    ensures files { files_in slots.new ≡ files_in slots.old }
    ensures follows { Follows slots.new shares.new counts.new.committed }
    ensures counted { AreCounted shares.new counts.new.pending counts.new.committed }
{
    let after = counts.with(1)?;
    let change = std::slice::from_ref(op);
    let prepared = prepare(alloc, change)?;
    if let Err(refused) = slots.place_all(&prepared, tid) {
        slots.tidy_all(change, tid);
        return Err(refused);
    }
    match shares.serve(tid, op, reply) {
        Ok(()) => {
            slots.change_all(prepared, tid);
            *counts = after;
            Ok(())
        }
        Err(refused) => {
            slots.tidy_all(change, tid);
            Err(refused)
        }
    }
}

/// Keeps whether the transaction's last vote is volatile. After a refusal all is as it was.
pub fn set_vote(
    slots: &FileTexts,
    shares: &mut Shares,
    counts: &ChangeCounts,
    tid: Tid,
    voted: bool,
) -> Result<(), NoMemory>
    requires follows { Follows slots.now shares.old counts.now.committed }
    requires counted { AreCounted shares.old counts.now.pending counts.now.committed }
    ensures shares { OnOk result (shares.new ≡ insert_entry tid_cmp shares.old tid (record (share_in shares.old tid) { voted = voted })) }
    ensures same { OnErr result (shares.new ≡ shares.old) }
    ensures follows { Follows slots.now shares.new counts.now.committed }
    ensures counted { AreCounted shares.new counts.now.pending counts.now.committed }
{
    let _ = slots;
    let _ = counts;
    shares.set_vote(tid, voted)?;
    Ok(())
}

/// Has just these changes pending for the transaction, in place of those and the reads that it had.
/// After a refusal all is as it was.
pub fn keep(
    alloc: Global,
    slots: &mut FileTexts,
    shares: &mut Shares,
    counts: &mut ChangeCounts,
    tid: Tid,
    changes: &Changes,
    before: &Before,
) -> Result<(), NoMemory>
    requires changes { before.now.changes ≡ (share_in shares.old tid).changes }
    requires reads { before.now.reads ≡ (share_in shares.old tid).reads }
    requires follows { Follows slots.old shares.old counts.old.committed }
    requires counted { AreCounted shares.old counts.old.pending counts.old.committed }
    ensures shares { OnOk result (shares.new ≡ insert_entry tid_cmp shares.old tid (kept_share changes.now)) }
    ensures same { OnErr result (shares.new ≡ shares.old) }
    ensures files { files_in slots.new ≡ files_in slots.old }
    ensures follows { Follows slots.new shares.new counts.new.committed }
    ensures counted { AreCounted shares.new counts.new.pending counts.new.committed }
{
    let after = counts.with(changes.len())?;
    let prepared = prepare(alloc, changes.as_slice())?;
    if let Err(refused) = slots.place_all(&prepared, tid) {
        slots.tidy_all(changes.as_slice(), tid);
        return Err(refused);
    }
    match shares.keep(tid, changes) {
        Ok(()) => {
            let dropped = before.changes.as_slice();
            slots.finish_all(dropped, tid, false);
            slots.change_all(prepared, tid);
            slots.tidy_all(dropped, tid);
            slots.unread_all(before.reads.as_slice(), tid);
            *counts = ChangeCounts {
                pending: after.pending - dropped.len(),
                ..after
            };
            Ok(())
        }
        Err(refused) => {
            slots.tidy_all(changes.as_slice(), tid);
            Err(refused)
        }
    }
}

/// What a transaction held before.
#[derive(Drop)]
pub struct Before {
    pub changes: Changes,
    pub reads: List<Bytes>,
}
