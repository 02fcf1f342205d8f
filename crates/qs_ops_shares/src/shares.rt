//! What the transactions hold.
ghost use Rattle.std.specs.Prelude.{◌≡◌, ◌++◌, ◌==◌, [], not, OnOk, OnErr, IfOk, length, nat_le, sum_by};
ghost use Rattle.std.specs.List.Sorted.{IsStrictlySortedBy};
ghost use Rattle.std.specs.Map.{remove_entry, keys_of};
ghost use Rattle.std.specs.BTreeMap.{insert_entry, is_at, IsOrdered};
ghost use Rattle.qs_base.specs.Order.{tid_cmp};
ghost use Rattle.qs_ops.specs.Server.{vote_in_room};
ghost use Rattle.qs_ops.specs.Spelled.{op_length};
ghost use Rattle.qs_ops.specs.Table.{TableValue, after_serve, any_holds, change_by, is_holding, nothing_held};
ghost use Rattle.qs_ops.specs.declared.reply.Reply.TheVariants.{Done};
ghost use Rattle.qs_ops_shares.specs.Shares.{share_in, kept_share, IsHeld, IsReplaced};

use crate::lengths::{add, changes_length, op_length};
use qs_base::{Bytes, Copied, List, NoMemory, Tid, copy_list};
use qs_ops::{Changes, Op, Reason, Reply, Share, Vote, is_change};
use std::alloc::Global;
use std::collections::BTreeMap;
use std::marker::Model;

/// The bytes of a Prepare record before its changes: tag, identifier, server, covers and count.
const PREPARE_HEAD: u64 = 23;

/// How many operations of a transaction a server serves.
const MOST_OPERATIONS: u32 = 1024;

/// What a transaction holds, and how many bytes spell its changes.
#[derive(Drop)]
struct HeldShare {
    share: Share,
    bytes: u64,
}

impl Model for HeldShare {
    ghost use Rattle.std.specs.Prelude.{◌≡◌, sum_by};
    ghost use Rattle.qs_ops.specs.Spelled.{op_length};
    ghost use Rattle.qs_ops.specs.declared.share.Share.{Share as Seen};

    ghost Value = { Seen };

    ghost view = { λ h. h.share };

    ghost invariant = { λ h. h.bytes ≡ sum_by op_length h.share.changes };
}

impl HeldShare {
    /// Nothing. It takes no memory.
    fn new(alloc: Global) -> HeldShare
        ensures { result ≡ nothing_held }
    {
        HeldShare {
            share: empty_share(alloc),
            bytes: 0,
        }
    }

    /// These changes, as a restart found them; each counts as one operation. A count that passes a
    /// `u32` is a refusal of memory too.
    fn kept(alloc: Global, changes: &Changes) -> Result<HeldShare, NoMemory>
        ensures { IfOk result (λ held. held ≡ kept_share changes.now) }
    {
        let Ok(operations) = u32::try_from(changes.len()) else {
            return Err(NoMemory);
        };
        let bytes = changes_length(changes.as_slice())?;
        let share = Share {
            changes: changes.copy()?,
            operations,
            ..empty_share(alloc)
        };
        Ok(HeldShare { share, bytes })
    }

    /// The pending changes in order.
    fn changes(&self) -> &[Op]
        ensures { result.now ≡ self.now.changes }
    {
        self.share.changes.as_slice()
    }

    /// The names that were read, in order.
    fn reads(&self) -> &[Bytes]
        ensures { result.now ≡ self.now.reads }
    {
        self.share.reads.as_slice()
    }

    /// Whether there are changes or reads.
    fn is_holding(&self) -> bool
        ensures { result ≡ is_holding self.now }
    {
        !self.share.changes.is_empty() || !self.share.reads.is_empty()
    }

    /// How many operations count.
    fn operations(&self) -> u32
        ensures { result ≡ self.now.operations }
    {
        self.share.operations
    }

    /// Whether the last vote is volatile.
    fn voted(&self) -> bool
        ensures { result ≡ self.now.voted }
    {
        self.share.voted
    }

    /// How many bytes spell the changes.
    fn bytes(&self) -> u64
        ensures { result ≡ sum_by op_length self.now.changes }
    {
        self.bytes
    }

    /// The share alone.
    fn into_share(self) -> Share
        ensures { result ≡ self }
    {
        let HeldShare { share, .. } = self;
        share
    }

    /// Keeps whether the last vote is volatile.
    fn set_vote(&mut self, voted: bool)
        ensures { self.new ≡ record self.old { voted = voted } }
    {
        self.share.voted = voted;
    }

    /// Adds what serving an operation with this reply makes. After a refusal it is as it was.
    fn serve(&mut self, op: &Op, reply: &Reply) -> Result<(), NoMemory>
        ensures ok { OnOk result (self.new ≡ after_serve self.old op.now reply.now) }
        ensures err { OnErr result (self.new ≡ self.old) }
    {
        if let Reply::TooMany = reply {
            return Ok(());
        }
        let Some(operations) = self.share.operations.checked_add(1) else {
            return Err(NoMemory);
        };
        match (op, reply) {
            (_, Reply::Done) => self.add(op)?,
            (Op::Get { name }, Reply::Absent | Reply::Value { .. }) => {
                self.share.reads.push(name.copy()?)?
            }
            _ => {}
        }
        self.share.operations = operations;
        Ok(())
    }

    /// Adds an operation that was done, where it is a change. After a refusal it is as it was.
    fn add(&mut self, op: &Op) -> Result<(), NoMemory>
        ensures ok { OnOk result (self.new ≡ record self.old { changes = self.old.changes ++ change_by op.now Done }) }
        ensures err { OnErr result (self.new ≡ self.old) }
    {
        if is_change(op) {
            let bytes = add(self.bytes, op_length(op)?)?;
            self.share.changes.push(op.copy()?)?;
            self.bytes = bytes;
        }
        Ok(())
    }
}

/// Nothing held.
fn empty_share(alloc: Global) -> Share
    ensures { result ≡ nothing_held }
{
    Share {
        changes: List::new(alloc),
        reads: List::new(alloc),
        operations: 0,
        voted: false,
    }
}

/// What the transactions hold at a server, by identifier.
#[derive(Drop)]
pub struct Shares {
    held: BTreeMap<Tid, HeldShare>,
    alloc: Global,
}

impl Model for Shares {
    ghost use Rattle.std.specs.Prelude.{List};
    ghost use Rattle.qs_base.specs.declared.identifiers.Tid.{Tid as Id};
    ghost use Rattle.qs_ops.specs.declared.share.Share.{Share as Seen};

    ghost Value = { List (Id × Seen) };

    ghost view = { λ s. s.held.entries };
}

impl Shares {
    /// Nobody holds anything. It takes no memory.
    pub fn new(alloc: Global) -> Shares
        ensures { result ≡ [] }
    {
        Shares {
            held: BTreeMap::new(alloc),
            alloc,
        }
    }

    /// The pending changes of the transaction, in the order in which they were served.
    pub fn changes(&self, tid: Tid) -> &[Op]
        ensures { result.now ≡ (share_in self.now tid).changes }
    {
        match self.held.get(&tid) {
            Some(held) => held.changes(),
            None => &[],
        }
    }

    /// A copy of them.
    pub fn copy_changes(&self, tid: Tid) -> Result<Changes, NoMemory>
        ensures { IfOk result (λ changes. changes ≡ (share_in self.now tid).changes) }
    {
        copy_list(self.alloc, self.changes(tid))
    }

    /// The names that the transaction read, in the order in which it read them.
    pub fn reads(&self, tid: Tid) -> &[Bytes]
        ensures { result.now ≡ (share_in self.now tid).reads }
    {
        match self.held.get(&tid) {
            Some(held) => held.reads(),
            None => &[],
        }
    }

    /// Whether the transaction has a pending change.
    pub fn has_changes(&self, tid: Tid) -> bool
        ensures { result ≡ not (length (share_in self.now tid).changes == 0) }
    {
        !self.changes(tid).is_empty()
    }

    /// Whether some transaction has pending changes or reads.
    pub fn any_holds(&self) -> bool
        ensures { result ≡ any_holds self.now }
    {
        self.held.iter().any(|entry| entry.1.is_holding())
    }

    /// Whether as many operations of the transaction were served as a server serves.
    pub fn is_full(&self, tid: Tid) -> bool
        ensures { result ≡ nat_le 1024 (share_in self.now tid).operations }
    {
        match self.held.get(&tid) {
            Some(held) => held.operations() >= MOST_OPERATIONS,
            None => false,
        }
    }

    /// Whether the transaction's last vote is volatile.
    pub fn has_voted(&self, tid: Tid) -> bool
        ensures { result ≡ (share_in self.now tid).voted }
    {
        match self.held.get(&tid) {
            Some(held) => held.voted(),
            None => false,
        }
    }

    /// How many bytes spell the pending changes of the transaction.
    fn bytes(&self, tid: Tid) -> u64
        ensures { result ≡ sum_by op_length (share_in self.now tid).changes }
    {
        match self.held.get(&tid) {
            Some(held) => held.bytes(),
            None => 0,
        }
    }

    /// Whether the log has room for what is pending, beside the `frame` bytes: the vote is
    /// recoverable, or abort for want of room. A need that passes a `u64` is a refusal of memory.
    pub fn vote_in_room(&self, tid: Tid, free: u64, frame: u64) -> Result<Vote, NoMemory>
        ensures { IfOk result (λ ballot. (table : TableValue) → table.shares ≡ self.now → ballot ≡ vote_in_room table tid free frame) }
    {
        let need = add(frame, add(PREPARE_HEAD, self.bytes(tid))?)?;
        if free < need {
            let reason = Reason::LogRoom { need, room: free };
            return Ok(Vote::Abort { reason });
        }
        Ok(Vote::Recoverable)
    }

    /// Adds what serving an operation with this reply makes. A count at its end is a refusal of
    /// memory too; after a refusal all hold what they did.
    pub fn serve(&mut self, tid: Tid, op: &Op, reply: &Reply) -> Result<(), NoMemory>
        ensures ok { OnOk result (self.new ≡ insert_entry tid_cmp self.old tid (after_serve (share_in self.old tid) op.now reply.now)) }
        ensures held { OnOk result (IsHeld tid (after_serve (share_in self.old tid) op.now reply.now) self.old self.new) }
        ensures sums { OnOk result (IsReplaced (share_in self.old tid) (after_serve (share_in self.old tid) op.now reply.now) self.old self.new) }
        ensures err { OnErr result (self.new ≡ self.old) }
    {
        serve(self.alloc, &mut self.held, tid, op, reply)
    }

    /// Keeps whether the transaction's last vote is volatile. After a refusal all hold what they
    /// did; none comes where the transaction holds something.
    pub fn set_vote(&mut self, tid: Tid, voted: bool) -> Result<(), NoMemory>
        ensures ok { OnOk result (self.new ≡ insert_entry tid_cmp self.old tid (record (share_in self.old tid) { voted = voted })) }
        ensures held { OnOk result (IsHeld tid (record (share_in self.old tid) { voted = voted }) self.old self.new) }
        ensures sums { OnOk result (IsReplaced (share_in self.old tid) (record (share_in self.old tid) { voted = voted }) self.old self.new) }
        ensures err { OnErr result (self.new ≡ self.old) }
    {
        set_vote(self.alloc, &mut self.held, tid, voted)
    }

    /// Has just these changes pending for the transaction, as a restart found them. A count that
    /// passes its type is a refusal of memory too; after a refusal all hold what they did.
    pub fn keep(&mut self, tid: Tid, changes: &Changes) -> Result<(), NoMemory>
        ensures ok { OnOk result (self.new ≡ insert_entry tid_cmp self.old tid (kept_share changes.now)) }
        ensures held { OnOk result (IsHeld tid (kept_share changes.now) self.old self.new) }
        ensures sums { OnOk result (IsReplaced (share_in self.old tid) (kept_share changes.now) self.old self.new) }
        ensures err { OnErr result (self.new ≡ self.old) }
    {
        let held = HeldShare::kept(self.alloc, changes)?;
        self.held.insert(tid, held)?;
        Ok(())
    }

    /// Takes out what the transaction holds. It takes no memory.
    pub fn release(&mut self, tid: Tid) -> Share
        ensures value { result ≡ share_in self.old tid }
        ensures left { self.new ≡ remove_entry (is_at (tid_cmp tid)) self.old }
        ensures held { IsHeld tid nothing_held self.old self.new }
        ensures sums { IsReplaced (share_in self.old tid) nothing_held self.old self.new }
    {
        match self.held.remove(&tid) {
            Some(held) => held.into_share(),
            None => empty_share(self.alloc),
        }
    }

    /// Transactions stand in order.
    pub fn in_order(&self)
        ensures { IsStrictlySortedBy tid_cmp (keys_of self.now) }
    {
        self.held.len();
    }

    /// Nobody holds anything any more. It takes no memory.
    pub fn clear(&mut self)
        ensures { self.new ≡ [] }
    {
        self.held = BTreeMap::new(self.alloc);
    }
}

/// Adds what serving an operation with this reply makes to what the transaction holds. After a
/// refusal all hold what they did.
fn serve(
    alloc: Global,
    shares: &mut BTreeMap<Tid, HeldShare>,
    tid: Tid,
    op: &Op,
    reply: &Reply,
) -> Result<(), NoMemory>
    ensures ok { OnOk result (shares.new.entries ≡ insert_entry tid_cmp shares.old.entries tid (after_serve (share_in shares.old.entries tid) op.now reply.now)) }
    ensures err { OnErr result (shares.new.entries ≡ shares.old.entries) }
    ensures ordered { IsOrdered tid_cmp shares.old }
{
    match shares.get_mut(&tid) {
        Some(held) => held.serve(op, reply),
        None => {
            let mut held = HeldShare::new(alloc);
            held.serve(op, reply)?;
            shares.insert(tid, held)?;
            Ok(())
        }
    }
}

/// Keeps whether the transaction's last vote is volatile. After a refusal all hold what they did.
fn set_vote(
    alloc: Global,
    shares: &mut BTreeMap<Tid, HeldShare>,
    tid: Tid,
    voted: bool,
) -> Result<(), NoMemory>
    ensures ok { OnOk result (shares.new.entries ≡ insert_entry tid_cmp shares.old.entries tid (record (share_in shares.old.entries tid) { voted = voted })) }
    ensures err { OnErr result (shares.new.entries ≡ shares.old.entries) }
    ensures ordered { IsOrdered tid_cmp shares.old }
{
    match shares.get_mut(&tid) {
        Some(held) => {
            held.set_vote(voted);
            Ok(())
        }
        None => {
            let mut held = HeldShare::new(alloc);
            held.set_vote(voted);
            shares.insert(tid, held)?;
            Ok(())
        }
    }
}
