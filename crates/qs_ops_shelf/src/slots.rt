//! Names, and what stands under each.
ghost use Rattle.std.specs.Prelude.{◌≡◌, [], ◌&&◌, false, IsSome, is_some, None, Some, IfOk, OnOk, OnErr};
ghost use Rattle.std.specs.Option.{option_copied};
ghost use Rattle.std.specs.List.{list_any};
ghost use Rattle.std.specs.BTreeMap.{IsOrdered};
ghost use Rattle.qs_base.specs.Order.{bytes_cmp, same_bytes};
ghost use Rattle.qs_ops.specs.Table.{is_change_of};
ghost use Rattle.qs_ops_shelf.specs.Slots.{text_in, pending_in, SamePending, SameTexts, IsStaged, IsSettled};
ghost use Rattle.qs_ops_shelf.specs.Texts.{shadowed};

use crate::slot::ShelfText;
use qs_base::{Bytes, Copied, NoMemory, Tid};
use qs_ops::Op;
use std::alloc::Global;
use std::collections::BTreeMap;

/// Names, and what stands under each. A name under which nothing stands takes no room.
#[derive(Drop)]
pub struct ShelfTexts {
    pub names: BTreeMap<Bytes, ShelfText>,
    pub alloc: Global,
}

impl ShelfTexts {
    /// Nothing stands under any name. It takes no memory.
    pub fn new(alloc: Global) -> ShelfTexts
        ensures { result.names.entries ≡ [] }
    {
        ShelfTexts {
            names: BTreeMap::new(alloc),
            alloc,
        }
    }

    /// The text under the name as the transaction sees it: its own, else the committed one.
    pub fn text(&self, name: &Bytes, tid: Tid) -> Option<&Bytes>
        ensures { option_copied result ≡ shadowed (pending_in self.now.names.entries name.now tid) (text_in self.now.names.entries name.now) }
    {
        let slot = self.names.get(name)?;
        match slot.pending.get(&tid) {
            Some(text) => Some(text),
            None => slot.text.as_ref(),
        }
    }

    /// Whether a text is committed under the name.
    pub fn is_bound(&self, name: &Bytes) -> bool
        ensures { result ≡ is_some (text_in self.now.names.entries name.now) }
    {
        match self.names.get(name) {
            Some(slot) => slot.text.is_some(),
            None => false,
        }
    }

    /// The transaction is about to put this text under the name, in place of the one that it is
    /// handed back. After a refusal all is as it was.
    pub fn stage(&mut self, name: &Bytes, tid: Tid, text: Bytes) -> Result<Option<Bytes>, NoMemory>
        ensures before { IfOk result (λ before. before ≡ pending_in self.old.names.entries name.now tid) }
        ensures staged { OnOk result (IsStaged (same_bytes name.now) tid (Some text) self.old.names.entries self.new.names.entries) }
        ensures texts { SameTexts self.old.names.entries self.new.names.entries }
        ensures refused { OnErr result (pending_in self.old.names.entries name.now tid ≡ None) }
        ensures err { OnErr result (SamePending self.old.names.entries self.new.names.entries) }
    {
        match self.names.get_mut(name) {
            Some(slot) => slot.stage(tid, text),
            None => {
                let slot = ShelfText::staged(self.alloc, tid, text)?;
                self.names.insert(name.copy()?, slot)?;
                Ok(None)
            }
        }
    }

    /// The transaction has nothing pending at the name any more; where it commits, what it had
    /// there is the committed text from now on. It takes no memory.
    pub fn settle(&mut self, name: &Bytes, tid: Tid, commits: bool)
        ensures staged { IsStaged (same_bytes name.now) tid None self.old.names.entries self.new.names.entries }
        ensures settled { IsSettled (λ q. commits && same_bytes name.now q) tid self.old.names.entries self.new.names.entries }
    {
        let Some(slot) = self.names.get_mut(name) else {
            return;
        };
        slot.settle(tid, commits);
        if slot.is_empty() {
            self.names.remove(name);
        }
    }

    /// The transaction has pending at the name what it had before, in place of what it was about to
    /// put there. It takes no memory.
    pub fn restore(&mut self, name: &Bytes, tid: Tid, before: Option<Bytes>)
        requires { IsSome (pending_in self.old.names.entries name.now tid) }
        ensures staged { IsStaged (same_bytes name.now) tid before self.old.names.entries self.new.names.entries }
        ensures texts { SameTexts self.old.names.entries self.new.names.entries }
    {
        match before {
            Some(text) => self.put_back(name, tid, text),
            None => self.drop_pending(name, tid),
        }
    }

    /// The transaction has this text pending in place of another. It takes no memory.
    fn put_back(&mut self, name: &Bytes, tid: Tid, text: Bytes)
        requires { IsSome (pending_in self.old.names.entries name.now tid) }
        ensures staged { IsStaged (same_bytes name.now) tid (Some text) self.old.names.entries self.new.names.entries }
        ensures texts { SameTexts self.old.names.entries self.new.names.entries }
    {
        let _ = self.stage(name, tid, text);
    }

    /// The transaction has nothing pending at the name any more. It takes no memory.
    fn drop_pending(&mut self, name: &Bytes, tid: Tid)
        ensures staged { IsStaged (same_bytes name.now) tid None self.old.names.entries self.new.names.entries }
        ensures texts { SameTexts self.old.names.entries self.new.names.entries }
    {
        self.settle(name, tid, false);
    }

    /// The transaction has nothing pending any more at the names that these changes change; where
    /// it commits, what it had there is the committed text from now on. It takes no memory.
    pub fn settle_all(&mut self, changes: &[Op], tid: Tid, commits: bool)
        ensures staged { IsStaged (λ q. list_any (is_change_of q) changes.now) tid None self.old.names.entries self.new.names.entries }
        ensures settled { IsSettled (λ q. commits && list_any (is_change_of q) changes.now) tid self.old.names.entries self.new.names.entries }
    {
        for change in changes {
            self.settle_change(change, tid, commits);
        }
    }

    /// The same for one change.
    fn settle_change(&mut self, change: &Op, tid: Tid, commits: bool)
        ensures staged { IsStaged (λ q. is_change_of q change.now) tid None self.old.names.entries self.new.names.entries }
        ensures settled { IsSettled (λ q. commits && is_change_of q change.now) tid self.old.names.entries self.new.names.entries }
    {
        match change {
            Op::Put { name, .. }
            | Op::Append { name, .. }
            | Op::Del { name }
            | Op::Bind { name, .. }
            | Op::Window { name, .. }
            | Op::Keep { name, .. } => self.settle(name, tid, commits),
            _ => self.leave(tid, commits),
        }
    }

    /// Nothing is settled.
    fn leave(&self, tid: Tid, commits: bool)
        ensures staged { IsStaged (λ q. false) tid None self.now.names.entries self.now.names.entries }
        ensures settled { IsSettled (λ q. commits && false) tid self.now.names.entries self.now.names.entries }
    {
        let _ = (tid, commits);
    }

    /// Names stand in byte order.
    pub fn in_order(&self)
        ensures { IsOrdered bytes_cmp self.now.names }
    {
        self.names.len();
    }

    /// Nothing stands under any name any more. It takes no memory.
    pub fn clear(&mut self)
        ensures { self.new.names.entries ≡ [] }
    {
        self.names = BTreeMap::new(self.alloc);
    }
}
