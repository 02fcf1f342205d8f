//! What a file server holds.
ghost use Rattle.std.specs.Prelude.{◌≡◌, true, is_some, length, map, nat_le, IfOk, IfSome, OnOk, OnErr};
ghost use Rattle.qs_ops.specs.Table.{no_table, text_at, view_contents, view_bytes, holder_of_name, share_of, has_changes, any_holds, served, with_vote, released, committed, kept, text_or_empty};
ghost use Rattle.qs_ops.specs.Server.{vote_in_room, AreFilesWritten};
ghost use Rattle.qs_files.specs.Held.{is_file_op, look_in};

use crate::held::{Before, ChangeCounts, end, keep, serve, set_vote};
use crate::notes::{add_notes, count_notes};
use qs_base::{Bytes, List, NoMemory, Tid, copy_list};
use qs_files_contents::{FileTexts, Look};
use qs_ops::{Changes, Op, Reply, Vote};
use qs_ops_shares::Shares;
use std::alloc::Global;
use std::marker::Model;

/// Files, and what each transaction has pending, read and locked.
#[derive(Drop)]
pub struct Holdings {
    slots: FileTexts,
    shares: Shares,
    counts: ChangeCounts,
    /// The notes that were committed, with room for those that are pending.
    notes: Vec<Bytes>,
    /// How many notes are pending.
    waiting: usize,
    alloc: Global,
}

impl Model for Holdings {
    ghost use Rattle.std.specs.Prelude.{vec_len};
    ghost use Rattle.std.specs.Vec.{vec_capacity};
    ghost use Rattle.qs_ops.specs.Table.{TableValue};
    ghost use Rattle.qs_files_contents.specs.Slots.{files_in};
    ghost use Rattle.qs_files.specs.Held.{IsKept};

    ghost Value = { TableValue };

    ghost view = { λ h. record { contents = files_in h.slots; notes = h.notes.items; shares = h.shares } };

    ghost invariant = { λ h. IsKept h.slots h.shares h.counts.pending h.counts.committed h.waiting (vec_len h.notes) (vec_capacity h.notes) };
}

impl Holdings {
    /// No files, and nobody holds anything. It takes no memory.
    pub fn new(alloc: Global) -> Holdings
        ensures { result ≡ no_table }
    {
        Holdings {
            slots: FileTexts::new(alloc),
            shares: Shares::new(alloc),
            counts: ChangeCounts {
                committed: 0,
                pending: 0,
            },
            notes: Vec::new(alloc),
            waiting: 0,
            alloc,
        }
    }

    /// What the transaction finds that looks at the file of that name.
    pub fn look(&self, tid: Tid, name: &Bytes) -> Result<Look, NoMemory>
        ensures { IfOk result (λ look. look ≡ look_in self.now tid name.now) }
    {
        self.shares.in_order();
        self.slots.look(name, tid)
    }

    /// How many bytes the file of that name has that the transaction sees; `None` only where they are more than a `usize` can tell.
    pub fn length(&self, tid: Tid, name: &Bytes) -> Option<usize>
        ensures { IfSome result (λ n. n ≡ length (text_or_empty (view_contents self.now tid) name.now)) }
    {
        self.slots.length(name, tid)
    }

    /// Whether the transaction sees a file of that name.
    pub fn has_file(&self, tid: Tid, name: &Bytes) -> bool
        ensures { result ≡ is_some (text_at self.now tid name.now) }
    {
        self.slots.is_seen(name, tid)
    }

    /// The names of the files that the transaction sees, in byte order.
    pub fn names(&self, tid: Tid) -> Result<List<Bytes>, NoMemory>
        ensures { IfOk result (λ names. names ≡ map (λ file. file.name) (view_contents self.now tid)) }
    {
        self.slots.names(tid)
    }

    /// How many bytes they have. A count past its end is a refusal of memory too.
    pub fn view_bytes(&self, tid: Tid) -> Result<u64, NoMemory>
        ensures { IfOk result (λ bytes. bytes ≡ view_bytes self.now tid) }
    {
        self.slots.bytes(tid, self.shares.changes(tid))
    }

    /// Who keeps a change to the name back: the least other transaction with a pending change to
    /// it, else the least other that read it.
    pub fn holder(&self, tid: Tid, name: &Bytes) -> Option<Tid>
        ensures { result ≡ holder_of_name self.now tid name.now }
    {
        self.shares.in_order();
        self.slots.holder(name, tid)
    }

    /// Whether as many operations of the transaction were served as a server serves.
    pub fn is_full(&self, tid: Tid) -> bool
        ensures { result ≡ nat_le 1024 (share_of self.now tid).operations }
    {
        self.shares.is_full(tid)
    }

    /// Whether the transaction has a pending change.
    pub fn has_changes(&self, tid: Tid) -> bool
        ensures { result ≡ has_changes self.now tid }
    {
        self.shares.has_changes(tid)
    }

    /// Whether some transaction has pending changes or reads.
    pub fn any_holds(&self) -> bool
        ensures { result ≡ any_holds self.now.shares }
    {
        self.shares.any_holds()
    }

    /// A copy of the transaction's pending changes, in the order in which they were served.
    pub fn changes(&self, tid: Tid) -> Result<Changes, NoMemory>
        ensures { IfOk result (λ changes. changes ≡ (share_of self.now tid).changes) }
    {
        self.shares.copy_changes(tid)
    }

    /// Whether the log has room for what is pending: recoverable, or abort for want of room.
    pub fn vote_in_room(&self, tid: Tid, free: u64, frame: u64) -> Result<Vote, NoMemory>
        ensures { IfOk result (λ ballot. ballot ≡ vote_in_room self.now tid free frame) }
    {
        self.shares.vote_in_room(tid, free, frame)
    }

    /// Changes that write the committed files again, in byte order of their names.
    pub fn contents(&self) -> Result<Changes, NoMemory>
        ensures { IfOk result (λ changes. AreFilesWritten self.now.contents changes) }
    {
        self.slots.contents()
    }

    /// Serves an operation with this reply. After a refusal all is as it was.
    pub fn serve(&mut self, tid: Tid, op: &Op, reply: &Reply) -> Result<(), NoMemory>
        requires { is_file_op op.now ≡ true }
        ensures ok { OnOk result (self.new ≡ served self.old tid op.now reply.now) }
        ensures err { OnErr result (self.new ≡ self.old) }
    {
        self.shares.in_order();
        serve(
            self.alloc,
            &mut self.slots,
            &mut self.shares,
            &mut self.counts,
            tid,
            op,
            reply,
        )?;
        Ok(())
    }

    /// Keeps whether the transaction's last vote is volatile. After a refusal all is as it was.
    pub fn set_vote(&mut self, tid: Tid, voted: bool) -> Result<(), NoMemory>
        ensures ok { OnOk result (self.new ≡ with_vote self.old tid voted) }
        ensures err { OnErr result (self.new ≡ self.old) }
    {
        self.shares.in_order();
        set_vote(&self.slots, &mut self.shares, &self.counts, tid, voted)?;
        Ok(())
    }

    /// Has just these changes pending for the transaction, as a restart found them in the log. After
    /// a refusal all is as it was.
    pub fn keep(&mut self, tid: Tid, changes: &Changes) -> Result<(), NoMemory>
        ensures ok { OnOk result (self.new ≡ kept self.old (record { tid = tid; changes = changes.now })) }
        ensures err { OnErr result (self.new ≡ self.old) }
    {
        let before = Before {
            changes: self.shares.copy_changes(tid)?,
            reads: copy_list(self.alloc, self.shares.reads(tid))?,
        };
        let added = count_notes(changes.as_slice());
        let waiting = self.waiting.checked_add(added).ok_or(NoMemory)?;
        self.notes.reserve(waiting)?;
        self.shares.in_order();
        keep(
            self.alloc,
            &mut self.slots,
            &mut self.shares,
            &mut self.counts,
            tid,
            changes,
            &before,
        )?;
        self.waiting = waiting - count_notes(before.changes.as_slice());
        Ok(())
    }

    /// The transaction holds nothing here any more. It takes no memory.
    pub fn release(&mut self, tid: Tid)
        ensures { self.new ≡ released self.old tid }
    {
        let share = end(
            &mut self.slots,
            &mut self.shares,
            &mut self.counts,
            tid,
            false,
        );
        self.waiting -= count_notes(share.changes.as_slice());
    }

    /// The pending changes of the transaction are committed, and it holds nothing here any more. It
    /// takes no memory.
    pub fn commit(&mut self, tid: Tid)
        ensures { self.new ≡ committed self.old tid }
    {
        let share = end(
            &mut self.slots,
            &mut self.shares,
            &mut self.counts,
            tid,
            true,
        );
        self.waiting -= count_notes(share.changes.as_slice());
        add_notes(&mut self.notes, share.changes);
    }

    /// No files any more, and nobody holds anything. It takes no memory.
    pub fn clear(&mut self)
        ensures { self.new ≡ no_table }
    {
        self.slots.clear();
        self.shares.clear();
        self.notes.clear();
        self.waiting = 0;
        self.counts = ChangeCounts {
            committed: 0,
            pending: 0,
        };
    }
}
