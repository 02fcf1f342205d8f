//! A server's table of texts under names.
ghost use Rattle.std.specs.Prelude.{◌≡◌, ◌&&◌, true, is_some, None, Some, IfOk, OnOk, OnErr};
ghost use Rattle.std.specs.List.{list_any};
ghost use Rattle.std.specs.Map.{remove_entry};
ghost use Rattle.std.specs.BTreeMap.{insert_entry, is_at};
ghost use Rattle.std.specs.Option.{option_copied, option_map};
ghost use Rattle.qs_base.specs.Order.{tid_cmp};
ghost use Rattle.qs_ops.specs.Files.{file_text, text_reply};
ghost use Rattle.qs_ops.specs.Table.{no_table, text_at, share_of, has_changes, served, with_vote, released, committed, reply_to, after_serve, any_holds, is_change_of, is_claim, is_taken};
ghost use Rattle.qs_ops_shares.specs.Shares.{share_in};
ghost use Rattle.qs_ops_shelf.specs.Plain.{is_plain, put_by};
ghost use Rattle.qs_ops_shelf.specs.Slots.{SameTexts, IsSettled, Follows};

use crate::claims::is_claimed;
use crate::slots::ShelfTexts;
use qs_base::{Bytes, Copied, NoMemory, Tid};
use qs_ops::{Changes, Op, Reply};
use qs_ops_shares::Shares;
use std::alloc::Global;
use std::marker::Model;

/// Texts under names, each replaced whole: what is committed, and what each transaction has
/// pending. A commit takes no memory.
#[derive(Drop)]
pub struct Shelf {
    slots: ShelfTexts,
    shares: Shares,
}

impl Model for Shelf {
    ghost use Rattle.std.specs.Prelude.{[]};
    ghost use Rattle.qs_ops.specs.Table.{TableValue};
    ghost use Rattle.qs_ops_shelf.specs.Slots.{files_in, Follows};

    ghost Value = { TableValue };

    ghost view = { λ s. record { contents = files_in s.slots.names.entries; notes = []; shares = s.shares } };

    ghost invariant = { λ s. Follows s.slots.names.entries s.shares };
}

impl Shelf {
    /// Nothing is committed, and nobody holds anything. It takes no memory.
    pub fn new(alloc: Global) -> Shelf
        ensures { result ≡ no_table }
    {
        Shelf {
            slots: ShelfTexts::new(alloc),
            shares: Shares::new(alloc),
        }
    }

    /// The text under the name as the transaction sees it.
    pub fn text(&self, tid: Tid, name: &Bytes) -> Option<&Bytes>
        ensures { option_copied result ≡ text_at self.now tid name.now }
    {
        self.slots.in_order();
        self.slots.text(name, tid)
    }

    /// Whether the transaction has a pending change.
    pub fn has_changes(&self, tid: Tid) -> bool
        ensures { result ≡ has_changes self.now tid }
    {
        self.shares.has_changes(tid)
    }

    /// The transaction's pending changes, in the order in which they were served.
    pub fn pending(&self, tid: Tid) -> &[Op]
        ensures { result.now ≡ (share_of self.now tid).changes }
    {
        self.shares.changes(tid)
    }

    /// A copy of them.
    pub fn changes(&self, tid: Tid) -> Result<Changes, NoMemory>
        ensures { IfOk result (λ changes. changes ≡ (share_of self.now tid).changes) }
    {
        self.shares.copy_changes(tid)
    }

    /// Whether some transaction has pending changes or reads.
    pub fn any_holds(&self) -> bool
        ensures { result ≡ any_holds self.now.shares }
    {
        self.shares.any_holds()
    }

    /// Whether a text is committed under the name.
    fn is_bound(&self, name: &Bytes) -> bool
        ensures { result ≡ is_some (file_text self.now.contents name.now) }
    {
        self.slots.in_order();
        self.slots.is_bound(name)
    }

    /// Whether another transaction that voted volatile has the name pending.
    fn is_claimed(&self, me: Tid, name: &Bytes) -> bool
        ensures { result ≡ list_any (is_claim me name.now) self.now.shares }
    {
        is_claimed(&self.slots, &self.shares, me, name)
    }

    /// Whether the name is taken for the transaction: a text is committed there, or another that
    /// voted volatile has it pending. It looks at each transaction that has the name pending, and
    /// at no other.
    pub fn is_taken(&self, me: Tid, name: &Bytes) -> bool
        ensures { result ≡ is_taken self.now me name.now }
    {
        self.is_bound(name) || self.is_claimed(me, name)
    }

    /// The reply to an operation that puts a text under a name, or asks for one.
    fn reply(&self, tid: Tid, op: &Op) -> Result<Reply, NoMemory>
        requires { is_plain op.now ≡ true }
        ensures { IfOk result (λ reply. reply_to self.now tid op.now ≡ Some reply) }
    {
        if self.shares.is_full(tid) {
            return Ok(Reply::TooMany);
        }
        match op {
            Op::Find { name } | Op::Title { name } | Op::Fetch { name } => {
                text_reply(self.text(tid, name))
            }
            _ => Ok(Reply::Done),
        }
    }

    /// Serves such an operation. After a refusal all is as it was.
    pub fn serve(&mut self, tid: Tid, op: &Op) -> Result<Reply, NoMemory>
        requires { is_plain op.now ≡ true }
        ensures reply { IfOk result (λ reply. reply_to self.old tid op.now ≡ Some reply) }
        ensures ok { IfOk result (λ reply. self.new ≡ served self.old tid op.now reply) }
        ensures err { OnErr result (self.new ≡ self.old) }
    {
        let reply = self.reply(tid, op)?;
        self.slots.in_order();
        let served = serve(&mut self.slots, &mut self.shares, tid, op, &reply);
        self.slots.in_order();
        served?;
        Ok(reply)
    }

    /// Keeps whether the transaction's last vote is volatile. After a refusal all is as it was.
    pub fn set_vote(&mut self, tid: Tid, voted: bool) -> Result<(), NoMemory>
        ensures ok { OnOk result (self.new ≡ with_vote self.old tid voted) }
        ensures err { OnErr result (self.new ≡ self.old) }
    {
        set_vote(&self.slots, &mut self.shares, tid, voted)
    }

    /// The transaction holds nothing here any more. It takes no memory.
    pub fn release(&mut self, tid: Tid)
        ensures { self.new ≡ released self.old tid }
    {
        self.slots.in_order();
        end(&mut self.slots, &mut self.shares, tid, false);
        self.slots.in_order();
    }

    /// The pending changes of the transaction are committed, and it holds nothing here any more.
    /// It takes no memory.
    pub fn commit(&mut self, tid: Tid)
        ensures { self.new ≡ committed self.old tid }
    {
        self.slots.in_order();
        end(&mut self.slots, &mut self.shares, tid, true);
        self.slots.in_order();
    }

    /// Nothing is committed any more, and nobody holds anything. It takes no memory.
    pub fn clear(&mut self)
        ensures { self.new ≡ no_table }
    {
        self.slots.clear();
        self.shares.clear();
    }
}

/// The reply that tells the text.
fn text_reply(text: Option<&Bytes>) -> Result<Reply, NoMemory>
    ensures { IfOk result (λ reply. reply ≡ text_reply (option_copied text.entry)) }
{
    match text {
        Some(text) => Ok(Reply::Value { text: text.copy()? }),
        None => Ok(Reply::Absent),
    }
}

/// The name and the text of an operation that with this reply puts a text under a name.
fn put_by<'a>(op: &'a Op, reply: &Reply) -> Option<(&'a Bytes, &'a Bytes)>
    ensures { option_map (λ p. (p.0.now, p.1.now)) result ≡ put_by op.now reply.now }
{
    match (op, reply) {
        (
            Op::Bind { name, text } | Op::Window { name, text } | Op::Keep { name, text },
            Reply::Done,
        ) => Some((name, text)),
        _ => None,
    }
}

/// Takes in an operation that was served with this reply. After a refusal all is as it was.
fn serve(
    slots: &mut ShelfTexts,
    shares: &mut Shares,
    tid: Tid,
    op: &Op,
    reply: &Reply,
) -> Result<(), NoMemory>
    requires plain { is_plain op.now ≡ true }
    requires follows { Follows slots.old.names.entries shares.old }
    ensures shares { OnOk result (shares.new ≡ insert_entry tid_cmp shares.old tid (after_serve (share_in shares.old tid) op.now reply.now)) }
    ensures same { OnErr result (shares.new ≡ shares.old) }
    ensures texts { SameTexts slots.old.names.entries slots.new.names.entries }
    ensures follows { Follows slots.new.names.entries shares.new }
{
    match put_by(op, reply) {
        Some((name, text)) => serve_put(slots, shares, tid, op, reply, name, text),
        None => serve_read(slots, shares, tid, op, reply),
    }
}

/// The same for an operation that puts this text under the name.
fn serve_put(
    slots: &mut ShelfTexts,
    shares: &mut Shares,
    tid: Tid,
    op: &Op,
    reply: &Reply,
    name: &Bytes,
    text: &Bytes,
) -> Result<(), NoMemory>
    requires puts { put_by op.now reply.now ≡ Some (name.now, text.now) }
    requires follows { Follows slots.old.names.entries shares.old }
    ensures shares { OnOk result (shares.new ≡ insert_entry tid_cmp shares.old tid (after_serve (share_in shares.old tid) op.now reply.now)) }
    ensures same { OnErr result (shares.new ≡ shares.old) }
    ensures texts { SameTexts slots.old.names.entries slots.new.names.entries }
    ensures follows { Follows slots.new.names.entries shares.new }
{
    let before = slots.stage(name, tid, text.copy()?)?;
    match shares.serve(tid, op, reply) {
        Ok(()) => Ok(()),
        Err(refused) => {
            slots.restore(name, tid, before);
            Err(refused)
        }
    }
}

/// The same for an operation that changes nothing.
fn serve_read(
    slots: &ShelfTexts,
    shares: &mut Shares,
    tid: Tid,
    op: &Op,
    reply: &Reply,
) -> Result<(), NoMemory>
    requires plain { is_plain op.now ≡ true }
    requires reads { put_by op.now reply.now ≡ None }
    requires follows { Follows slots.now.names.entries shares.old }
    ensures shares { OnOk result (shares.new ≡ insert_entry tid_cmp shares.old tid (after_serve (share_in shares.old tid) op.now reply.now)) }
    ensures same { OnErr result (shares.new ≡ shares.old) }
    ensures follows { Follows slots.now.names.entries shares.new }
{
    let _ = slots;
    shares.serve(tid, op, reply)?;
    Ok(())
}

/// Keeps whether the transaction's last vote is volatile.
fn set_vote(slots: &ShelfTexts, shares: &mut Shares, tid: Tid, voted: bool) -> Result<(), NoMemory>
    requires follows { Follows slots.now.names.entries shares.old }
    ensures shares { OnOk result (shares.new ≡ insert_entry tid_cmp shares.old tid (record (share_in shares.old tid) { voted = voted })) }
    ensures same { OnErr result (shares.new ≡ shares.old) }
    ensures follows { Follows slots.now.names.entries shares.new }
{
    let _ = slots;
    shares.set_vote(tid, voted)?;
    Ok(())
}

/// The transaction holds nothing any more; where it commits, what it had pending is committed.
fn end(slots: &mut ShelfTexts, shares: &mut Shares, tid: Tid, commits: bool)
    requires follows { Follows slots.old.names.entries shares.old }
    ensures shares { shares.new ≡ remove_entry (is_at (tid_cmp tid)) shares.old }
    ensures settled { IsSettled (λ q. commits && list_any (is_change_of q) (share_in shares.old tid).changes) tid slots.old.names.entries slots.new.names.entries }
    ensures follows { Follows slots.new.names.entries shares.new }
{
    let share = shares.release(tid);
    slots.settle_all(share.changes.as_slice(), tid, commits);
}
