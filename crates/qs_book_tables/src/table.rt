//! The table of a server: what is committed, what each transaction holds, and who holds a name.
ghost use Rattle.std.specs.Prelude.{◌≡◌, ◌↔◌, Some, IsTrue, IfOk, OnOk, OnErr, length};
ghost use Rattle.std.specs.Option.{option_copied};
ghost use Rattle.qs_ops.specs.Spelled.{prepare_length};
ghost use Rattle.qs_book_tables.specs.Refusals.{refusal_of};
ghost use Rattle.qs_book_tables.specs.Views.{viewed_reply};
ghost use Rattle.qs_ops.specs.Table.{is_change_of};

use crate::claims::{is_claimed, lesser};
use crate::commits::apply_changes;
use crate::contents::file_text;
use crate::counts::has_prepare_length;
use crate::free_reply::{free_reply, is_served};
use crate::locks::Locks;
use crate::refusal::RequestRefusal;
use crate::restarts::keep_all;
use crate::serving::{release_share, serve_locked, vote_locked};
use crate::shares::changes_of;
use crate::staged::stage;
use qs_base::{Bytes, List, NoMemory, Tid, copy_list};
use qs_ops::{Changes, File, KeptChanges, Op, Reply, Share};
use std::alloc::Global;
use std::collections::BTreeMap;
use std::marker::Model;

/// The table of a server of files, audit, names, windows or scratch.
#[derive(Drop)]
pub struct Table {
    contents: List<File>,
    /// How many bytes the texts of the contents have.
    bytes: u64,
    notes: List<Bytes>,
    shares: BTreeMap<Tid, Share>,
    locks: Locks,
    alloc: Global,
}

impl Model for Table {
    ghost use Rattle.qs_ops.specs.Table.{TableValue};
    ghost use Rattle.qs_book_tables.specs.Held.{IsConsistent};

    ghost Value = { TableValue };

    ghost view = { λ t. record { contents = t.contents; notes = t.notes; shares = t.shares.entries } };

    ghost invariant = { λ t. IsConsistent t.contents t.bytes t.locks t.shares.entries };
}

impl Table {
    ghost use Rattle.qs_ops.specs.Table.{no_table, is_due, share_of, has_changes, changes_name, view_contents, view_notes, holder, reply_to, served, released, committed, with_vote, view_bytes, is_taken, taken_by, least_taken, restarted};

    /// Nothing is committed, and nobody holds anything. It takes no memory.
    pub fn new(alloc: Global) -> Table
        ensures { result ≡ no_table }
    {
        Table {
            contents: List::new(alloc),
            bytes: 0,
            notes: List::new(alloc),
            shares: BTreeMap::new(alloc),
            locks: Locks::new(alloc),
            alloc,
        }
    }

    /// The committed files, or what else stands under names, in byte order of the names.
    pub fn contents(&self) -> &List<File>
        ensures { result.now ≡ self.now.contents }
    {
        &self.contents
    }

    /// The committed notes in order.
    pub fn notes(&self) -> &List<Bytes>
        ensures { result.now ≡ self.now.notes }
    {
        &self.notes
    }

    /// The pending changes of the transaction.
    fn pending(&self, tid: Tid) -> &[Op]
        ensures { result.now ≡ (share_of self.now tid).changes }
    {
        changes_of(&self.shares, tid)
    }

    /// Whether the transaction has a pending change.
    pub fn has_changes(&self, tid: Tid) -> bool
        ensures { result ≡ has_changes self.now tid }
    {
        self.change_count(tid) != 0
    }

    /// How many pending changes the transaction has.
    pub fn change_count(&self, tid: Tid) -> usize
        ensures { result ≡ length (share_of self.now tid).changes }
    {
        self.pending(tid).len()
    }

    /// Whether a pending change of the transaction is to that name.
    pub fn changes_name(&self, tid: Tid, name: &Bytes) -> bool
        ensures { result ≡ changes_name name.now (share_of self.now tid) }
    {
        self.pending(tid)
            .iter()
            .any(|change| is_change_of(name, change))
    }

    /// A copy of the transaction's pending changes, in the order in which they were served. The
    /// only error is a refusal of memory.
    pub fn changes(&self, tid: Tid) -> Result<Changes, NoMemory>
        ensures { IfOk result (λ changes. changes ≡ (share_of self.now tid).changes) }
    {
        copy_list(self.alloc, self.pending(tid))
    }

    /// Who keeps the transaction from the operation: another with a pending change to the name,
    /// else, for a change, another that read it; of several the least. It takes no memory, and a
    /// time that is logarithmic in the names that are held.
    fn holder(&self, tid: Tid, op: &Op) -> Option<Tid>
        ensures { result ≡ holder self.now tid op.now }
    {
        self.locks.holder(tid, op)
    }

    /// How many operations of the transaction count.
    pub fn operations(&self, tid: Tid) -> u32
        ensures { result ≡ (share_of self.now tid).operations }
    {
        match self.shares.get(&tid) {
            Some(share) => share.operations,
            None => 0,
        }
    }

    /// Why the operation is refused, if it is.
    fn refusal(&self, tid: Tid, op: &Op) -> Option<RequestRefusal>
        ensures { result ≡ refusal_of self.now tid op.now }
    {
        if self.operations(tid) >= 1024 {
            return Some(RequestRefusal::Full);
        }
        match self.holder(tid, op) {
            Some(other) => Some(RequestRefusal::Held(other)),
            None => None,
        }
    }

    /// The reply to the operation where nothing refuses it.
    fn free_reply(&self, tid: Tid, op: &Op) -> Result<Option<Reply>, NoMemory>
        ensures { IfOk result (λ reply. reply ≡ viewed_reply (view_contents self.now tid) (view_notes self.now tid) op.now) }
    {
        let (files, notes) = (self.contents.as_slice(), self.notes.as_slice());
        free_reply(self.alloc, files, notes, self.pending(tid), op)
    }

    /// The reply to an operation; `Ok(None)` exactly where it is no operation of such a server.
    /// The only error is a refusal of memory.
    pub fn reply(&self, tid: Tid, op: &Op) -> Result<Option<Reply>, NoMemory>
        ensures { IfOk result (λ reply. reply ≡ reply_to self.now tid op.now) }
    {
        if !is_served(op) {
            return Ok(None);
        }
        match self.refusal(tid, op) {
            Some(refusal) => Ok(Some(refusal.reply())),
            None => self.free_reply(tid, op),
        }
    }

    /// Whether this is the reply to the operation. The only error is a refusal of memory.
    pub fn is_reply(&self, tid: Tid, op: &Op, reply: &Reply) -> Result<bool, NoMemory>
        ensures { IfOk result (λ yes. yes ≡ is_due (reply_to self.now tid op.now) reply.now) }
    {
        match self.reply(tid, op)? {
            Some(due) => Ok(due.is(reply)),
            None => Ok(false),
        }
    }

    /// Serves an operation with this reply: what it changes is pending, and what it locks is held.
    /// The only error is a refusal of memory, for which a count at its end stands too, and all is
    /// then as it was.
    pub fn served(&mut self, tid: Tid, op: &Op, reply: &Reply) -> Result<(), NoMemory>
        ensures ok { OnOk result (self.new ≡ served self.old tid op.now reply.now) }
        ensures err { OnErr result (self.new ≡ self.old) }
    {
        serve_locked(
            self.alloc,
            &mut self.locks,
            &mut self.shares,
            tid,
            op,
            reply,
        )
    }

    /// The transaction holds nothing here any more. It takes no memory.
    pub fn release(&mut self, tid: Tid)
        ensures { self.new ≡ released self.old tid }
    {
        drop(release_share(&mut self.locks, &mut self.shares, tid));
    }

    /// Commits the pending changes of the transaction, which holds nothing here any more. The only
    /// error is a refusal of memory, for which a count of bytes at its end stands too, and all is
    /// then as it was.
    pub fn commit(&mut self, tid: Tid) -> Result<(), NoMemory>
        ensures ok { OnOk result (self.new ≡ committed self.old tid) }
        ensures err { OnErr result (self.new ≡ self.old) }
    {
        let changes = changes_of(&self.shares, tid);
        apply_changes(
            self.alloc,
            &mut self.contents,
            &mut self.bytes,
            &mut self.notes,
            changes,
        )?;
        drop(release_share(&mut self.locks, &mut self.shares, tid));
        Ok(())
    }

    /// Keeps whether the transaction's last vote is volatile. The only error is a refusal of memory,
    /// and all is then as it was.
    pub fn set_vote(&mut self, tid: Tid, voted: bool) -> Result<(), NoMemory>
        ensures ok { OnOk result (self.new ≡ with_vote self.old tid voted) }
        ensures err { OnErr result (self.new ≡ self.old) }
    {
        vote_locked(self.alloc, &self.locks, &mut self.shares, tid, voted)
    }

    /// How many bytes the contents have that the transaction sees. It looks at its pending changes
    /// alone, and copies their texts; the only error is a refusal of that memory, for which a count
    /// of bytes at its end stands too.
    pub fn view_bytes(&self, tid: Tid) -> Result<u64, NoMemory>
        ensures { IfOk result (λ bytes. bytes ≡ view_bytes self.now tid) }
    {
        let files = self.contents.as_slice();
        let (_, seen) = stage(self.alloc, files, self.bytes, self.pending(tid))?;
        Ok(seen)
    }

    /// Whether the contents that the transaction sees have just so many bytes. It costs and fails as
    /// `view_bytes` does.
    pub fn has_view_bytes(&self, tid: Tid, bytes: u64) -> Result<bool, NoMemory>
        ensures { IfOk result (λ yes. IsTrue yes ↔ (view_bytes self.now tid ≡ bytes)) }
    {
        Ok(self.view_bytes(tid)? == bytes)
    }

    /// Whether a Prepare record of the transaction's pending changes has just so many bytes. It
    /// takes no memory.
    pub fn has_prepare_length(&self, tid: Tid, length: u64) -> bool
        ensures { IsTrue result ↔ (prepare_length (share_of self.now tid).changes ≡ length) }
    {
        has_prepare_length(self.pending(tid), length)
    }

    /// Whether a name is taken for the transaction.
    fn is_taken(&self, tid: Tid, name: &Bytes) -> bool
        ensures { result ≡ is_taken self.now tid name.now }
    {
        file_text(self.contents.as_slice(), name.as_slice()).is_some()
            || is_claimed(&self.locks, &self.shares, tid, name)
    }

    /// The name that the change binds, where it is taken.
    fn taken_by<'a>(&self, tid: Tid, change: &'a Op) -> Option<&'a Bytes>
        ensures { option_copied result ≡ taken_by self.now tid change.now }
    {
        match change {
            Op::Bind { name, .. } if self.is_taken(tid, name) => Some(name),
            _ => None,
        }
    }

    /// The least of the transaction's pending names that is taken: bound, or pending for another
    /// that voted volatile here. It takes no memory.
    pub fn least_taken(&self, tid: Tid) -> Option<&Bytes>
        ensures { option_copied result ≡ least_taken self.now tid }
    {
        let changes = self.pending(tid);
        let mut least = None;
        let mut left = changes.len();
        while left > 0 {
            left -= 1;
            least = lesser(self.taken_by(tid, &changes[left]), least);
        }
        least
    }

    /// What a restart makes of the table: all that was pending is gone, these changes are committed
    /// in order, and those are pending again, with their locks. The only error is a refusal of
    /// memory, and all is then as it was.
    pub fn restart(&mut self, changes: &List<Op>, keeps: &List<KeptChanges>) -> Result<(), NoMemory>
        ensures ok { OnOk result (self.new ≡ restarted self.old changes.now keeps.now) }
        ensures err { OnErr result (self.new ≡ self.old) }
    {
        let (locks, shares) = keep_all(self.alloc, keeps.as_slice())?;
        let changes = changes.as_slice();
        match apply_changes(
            self.alloc,
            &mut self.contents,
            &mut self.bytes,
            &mut self.notes,
            changes,
        ) {
            Ok(()) => {
                self.locks = locks;
                self.shares = shares;
                Ok(())
            }
            Err(refused) => {
                drop(locks);
                drop(shares);
                Err(refused)
            }
        }
    }
}
/// Whether it is a change to that name.
fn is_change_of(name: &Bytes, change: &Op) -> bool
    ensures { result ≡ is_change_of name.now change.now }
{
    match change {
        Op::Put { name: other, .. }
        | Op::Append { name: other, .. }
        | Op::Del { name: other }
        | Op::Bind { name: other, .. }
        | Op::Window { name: other, .. }
        | Op::Keep { name: other, .. } => other.as_slice() == name.as_slice(),
        _ => false,
    }
}
