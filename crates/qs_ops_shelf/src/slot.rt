//! What stands under one name.
ghost use Rattle.std.specs.Prelude.{◌≡◌, None, Some, IsTrue, IfOk, OnOk, OnErr, if◌then◌else◌};
ghost use Rattle.std.specs.Map.{lookup};
ghost use Rattle.std.specs.BTreeMap.{is_at};
ghost use Rattle.qs_base.specs.Order.{tid_cmp, same_tid};

use qs_base::{Bytes, NoMemory, Tid};
use std::alloc::Global;
use std::collections::BTreeMap;

/// What stands under a name: the committed text, and for each transaction that changed it the text
/// that its commit puts there.
#[derive(Drop)]
pub struct ShelfText {
    pub text: Option<Bytes>,
    pub pending: BTreeMap<Tid, Bytes>,
}

impl ShelfText {
    ghost use Rattle.qs_base.specs.declared.identifiers.Tid.{Tid};
    ghost use Rattle.qs_ops_shelf.specs.Texts.{shadowed, IsEmptied};

    /// Nothing is committed, and one transaction has a text pending. After a refusal the text is
    /// lost.
    pub fn staged(alloc: Global, tid: Tid, text: Bytes) -> Result<ShelfText, NoMemory>
        ensures text { IfOk result (λ slot. slot.text ≡ None) }
        ensures pending { IfOk result (λ slot. (t : Tid) → lookup (is_at (tid_cmp t)) slot.pending.entries ≡ (if same_tid tid t then Some text else None)) }
    {
        let mut pending = BTreeMap::new(alloc);
        pending.insert(tid, text)?;
        Ok(ShelfText {
            text: None,
            pending,
        })
    }

    /// The transaction has this text pending, in place of the one that it is handed back. After a
    /// refusal all is as it was.
    pub fn stage(&mut self, tid: Tid, text: Bytes) -> Result<Option<Bytes>, NoMemory>
        ensures before { IfOk result (λ before. before ≡ lookup (is_at (tid_cmp tid)) self.old.pending.entries) }
        ensures pending { OnOk result ((t : Tid) → lookup (is_at (tid_cmp t)) self.new.pending.entries ≡ (if same_tid tid t then Some text else lookup (is_at (tid_cmp t)) self.old.pending.entries)) }
        ensures text { self.new.text ≡ self.old.text }
        ensures refused { OnErr result (lookup (is_at (tid_cmp tid)) self.old.pending.entries ≡ None) }
        ensures err { OnErr result ((t : Tid) → lookup (is_at (tid_cmp t)) self.new.pending.entries ≡ lookup (is_at (tid_cmp t)) self.old.pending.entries) }
    {
        Ok(self.pending.insert(tid, text)?)
    }

    /// The transaction has nothing pending any more; where it commits, what it had is the committed
    /// text from now on. It takes no memory.
    pub fn settle(&mut self, tid: Tid, commits: bool)
        ensures text { self.new.text ≡ (if commits then shadowed (lookup (is_at (tid_cmp tid)) self.old.pending.entries) self.old.text else self.old.text) }
        ensures pending { (t : Tid) → lookup (is_at (tid_cmp t)) self.new.pending.entries ≡ (if same_tid tid t then None else lookup (is_at (tid_cmp t)) self.old.pending.entries) }
    {
        let text = self.pending.remove(&tid);
        if commits && text.is_some() {
            self.text = text;
        }
    }

    /// Whether nothing stands there.
    pub fn is_empty(&self) -> bool
        ensures { IsTrue result → IsEmptied self.now.text self.now.pending.entries }
    {
        self.text.is_none() && self.pending.is_empty()
    }
}
