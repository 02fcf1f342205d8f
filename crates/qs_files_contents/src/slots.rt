//! What stands under names.
ghost use Rattle.std.specs.Prelude.{◌≡◌, [], ◌∷◌, IfOk, IfSome, OnOk, OnErr, is_some};
ghost use Rattle.std.specs.List.{fold};
ghost use Rattle.std.specs.List.Sorted.{IsStrictlySortedBy};
ghost use Rattle.std.specs.Map.{keys_of};
ghost use Rattle.qs_base.specs.Order.{bytes_cmp};
ghost use Rattle.qs_ops.specs.Files.{or_else};
ghost use Rattle.qs_ops.specs.Server.{AreFilesWritten};
ghost use Rattle.qs_files_contents.specs.Written.{AddsFiles};
ghost use Rattle.qs_files_contents.specs.Texts.{text_bytes};
ghost use Rattle.qs_files_contents.specs.Slots.{slot_or_new, seen_at, first_other, is_edit, is_read, look_at, reader_at, placed, slot_changed, finished, tidied, ended, slot_read, slot_unread, at_slot, put_slot, swept, place_for, SomePlaced, change_by, at_change, tidy_change, end_change, unread_name, add_name, add_entry, files_in};
ghost use Rattle.qs_files_contents.specs.Sums.{ChangesAlone};

use crate::counting::count_seen;
use crate::prepared::{Prepared, changed_name};
use crate::slot::{FileText, Look};
use crate::under;
use crate::writing::add_file;
use qs_base::{Bytes, Copied, List, NoMemory, Tid};
use qs_base_map::Map;
use qs_ops::{Changes, Op};
use std::alloc::Global;
use std::marker::Model;

/// What stands under names: texts, what each transaction is about to make of them, and which
/// transactions read them. A name under which nothing stands takes no room.
#[derive(Drop)]
pub struct FileTexts {
    names: Map<Bytes, FileText>,
    /// How many bytes the committed texts have; `None` where they are more than a `usize` can tell.
    committed: Option<usize>,
    alloc: Global,
}

impl Model for FileTexts {
    ghost use Rattle.qs_files_contents.specs.Slots.{Entries};
    ghost use Rattle.qs_files_contents.specs.Sums.{IsCommitted};

    ghost Value = { Entries };

    ghost view = { λ s. s.names };

    ghost invariant = { λ s. IsCommitted s.names s.committed };
}

impl FileTexts {
    /// Nothing stands under any name. It takes no memory.
    pub fn new(alloc: Global) -> FileTexts
        ensures { result ≡ [] }
    {
        FileTexts {
            names: Map::new(alloc),
            committed: Some(0),
            alloc,
        }
    }

    /// What the transaction finds that looks at the text under a name.
    pub fn look(&self, name: &Bytes, tid: Tid) -> Result<Look, NoMemory>
        ensures { IfOk result (λ look. look ≡ look_at (slot_or_new self.now name.now) tid) }
    {
        match self.names.get(name) {
            Some(slot) => slot.look(self.alloc, tid),
            None => Ok(Look::Free { text: None }),
        }
    }

    /// How many bytes the text under a name has that the transaction sees; `None` only where they are more than a `usize` can tell.
    pub fn length(&self, name: &Bytes, tid: Tid) -> Option<usize>
        ensures { IfSome result (λ n. n ≡ text_bytes (seen_at (slot_or_new self.now name.now) tid)) }
    {
        match self.names.get(name) {
            Some(slot) => slot.length(tid),
            None => Some(0),
        }
    }

    /// Whether the transaction sees a text under the name.
    pub fn is_seen(&self, name: &Bytes, tid: Tid) -> bool
        ensures { result ≡ is_some (seen_at (slot_or_new self.now name.now) tid) }
    {
        match self.names.get(name) {
            Some(slot) => slot.is_seen(tid),
            None => false,
        }
    }

    /// Who keeps a change by the transaction to the text under the name back: the least other that is about to
    /// change it, else the least other that read it.
    pub fn holder(&self, name: &Bytes, me: Tid) -> Option<Tid>
        ensures { result ≡ or_else (first_other is_edit me (slot_or_new self.now name.now).edits) (first_other is_read me (slot_or_new self.now name.now).readers) }
    {
        match self.names.get(name) {
            Some(slot) => slot.holder(me),
            None => None,
        }
    }

    /// Makes room for a change of the transaction. After a refusal all is as it was.
    fn place(&mut self, name: &Bytes, tid: Tid) -> Result<(), NoMemory>
        ensures ok { OnOk result (self.new ≡ put_slot (placed tid) name.now self.old) }
        ensures err { OnErr result (self.new ≡ self.old) }
    {
        under::place(self.alloc, &mut self.names, name, tid)
    }

    /// Makes room for these changes of the transaction. After a refusal there is room for some.
    pub fn place_all(&mut self, changes: &[Prepared], tid: Tid) -> Result<(), NoMemory>
        ensures ok { OnOk result (self.new ≡ fold (place_for tid) self.old changes.now) }
        ensures err { OnErr result (SomePlaced tid self.old self.new changes.now) }
    {
        for change in changes {
            self.place(&change.name, tid)?;
        }
        Ok(())
    }

    /// One more change of a transaction that room was made for. It takes no memory.
    fn change(&mut self, change: Prepared, tid: Tid)
        ensures { self.new ≡ change_by tid self.old change }
    {
        under::change(&mut self.names, change, tid);
    }

    /// These changes more of a transaction that room was made for. It takes no memory.
    pub fn change_all(&mut self, changes: Vec<Prepared>, tid: Tid)
        ensures { self.new ≡ fold (change_by tid) self.old changes.items }
    {
        for change in changes {
            self.change(change, tid);
        }
    }

    /// The transaction does not change the text under the name any more; where it commits, what it
    /// was about to make of it is committed. Its room stays. It takes no memory.
    fn finish(&mut self, name: &Bytes, tid: Tid, commits: bool)
        ensures { self.new ≡ at_slot (finished tid commits) name.now self.old }
    {
        self.committed = under::finish(&mut self.names, self.committed, name, tid, commits);
    }

    /// The same for the names of these changes.
    pub fn finish_all(&mut self, changes: &[Op], tid: Tid, commits: bool)
        ensures { self.new ≡ fold (at_change (finished tid commits)) self.old changes.now }
    {
        for change in changes {
            self.finish_change(change, tid, commits);
        }
    }

    fn finish_change(&mut self, change: &Op, tid: Tid, commits: bool)
        ensures { self.new ≡ at_change (finished tid commits) self.old change.now }
    {
        if let Some(name) = changed_name(change) {
            self.finish(name, tid, commits);
        }
    }

    /// Gives back the room under the name of a transaction that changes nothing there. It takes no
    /// memory.
    fn tidy(&mut self, name: &Bytes, tid: Tid)
        ensures { self.new ≡ swept name.now (at_slot (tidied tid) name.now self.old) }
    {
        under::tidy(&mut self.names, name, tid);
    }

    /// The same for the names of these changes.
    pub fn tidy_all(&mut self, changes: &[Op], tid: Tid)
        ensures { self.new ≡ fold (tidy_change tid) self.old changes.now }
    {
        for change in changes {
            self.tidy_change(change, tid);
        }
    }

    fn tidy_change(&mut self, change: &Op, tid: Tid)
        ensures { self.new ≡ tidy_change tid self.old change.now }
    {
        if let Some(name) = changed_name(change) {
            self.tidy(name, tid);
        }
    }

    /// The transaction does not change the text under the name any more, and its room is given back; where
    /// it commits, what it was about to make of the text is committed. It takes no memory.
    fn end(&mut self, name: &Bytes, tid: Tid, commits: bool)
        ensures { self.new ≡ swept name.now (at_slot (ended tid commits) name.now self.old) }
    {
        self.committed = under::end(&mut self.names, self.committed, name, tid, commits);
    }

    /// The same for the names of these changes, one after the other.
    pub fn end_all(&mut self, changes: &[Op], tid: Tid, commits: bool)
        ensures { self.new ≡ fold (end_change tid commits) self.old changes.now }
    {
        for change in changes {
            self.end_change(change, tid, commits);
        }
    }

    fn end_change(&mut self, change: &Op, tid: Tid, commits: bool)
        ensures { self.new ≡ end_change tid commits self.old change.now }
    {
        if let Some(name) = changed_name(change) {
            self.end(name, tid, commits);
        }
    }

    /// The transaction read the text under the name. Whether it had read it before comes back. After a
    /// refusal all is as it was.
    pub fn read(&mut self, name: &Bytes, tid: Tid) -> Result<bool, NoMemory>
        ensures ok { OnOk result (self.new ≡ put_slot (slot_read tid) name.now self.old) }
        ensures err { OnErr result (self.new ≡ self.old) }
        ensures before { IfOk result (λ before. before ≡ reader_at (slot_or_new self.old name.now).readers tid) }
    {
        under::read(self.alloc, &mut self.names, name, tid)
    }

    /// The transaction did not read the text under the name any more. It takes no memory.
    pub fn unread(&mut self, name: &Bytes, tid: Tid)
        ensures { self.new ≡ unread_name tid self.old name.now }
    {
        under::unread(&mut self.names, name, tid);
    }

    /// The same for these names.
    pub fn unread_all(&mut self, names: &[Bytes], tid: Tid)
        ensures { self.new ≡ fold (unread_name tid) self.old names.now }
    {
        for name in names {
            self.unread(name, tid);
        }
    }

    /// The names under which the transaction sees a text, in byte order.
    pub fn names(&self, tid: Tid) -> Result<List<Bytes>, NoMemory>
        ensures { IfOk result (λ names. names ≡ fold (add_name tid) [] self.now) }
    {
        let mut names = List::new(self.alloc);
        for entry in self.names.iter() {
            add_name(&mut names, tid, entry.0, entry.1)?;
        }
        Ok(names)
    }

    /// How many bytes the texts have that the transaction sees, where these are the changes that it
    /// is about to make. A count past its end is a refusal of memory too.
    pub fn bytes(&self, tid: Tid, changes: &[Op]) -> Result<u64, NoMemory>
        requires { ChangesAlone tid self.now changes.now }
        ensures { IfOk result (λ bytes. bytes ≡ fold (add_entry tid) 0 self.now) }
    {
        let committed = self.committed.ok_or(NoMemory)?;
        let bytes = count_seen(self.alloc, &self.names, committed, tid, changes)?;
        Ok(bytes as u64)
    }

    /// Changes that write the committed texts as files again, in byte order of their names.
    pub fn contents(&self) -> Result<Changes, NoMemory>
        ensures { IfOk result (λ changes. AreFilesWritten (files_in self.now) changes) }
    {
        let mut changes = List::new(self.alloc);
        for entry in self.names.iter() {
            add_slot(self.alloc, &mut changes, entry.0, entry.1)?;
        }
        Ok(changes)
    }

    /// Nothing stands under any name any more. It takes no memory.
    pub fn clear(&mut self)
        ensures { self.new ≡ [] }
    {
        self.names = Map::new(self.alloc);
        self.committed = Some(0);
    }
}

/// Adds the name, where the transaction sees a text under it.
fn add_name(
    names: &mut List<Bytes>,
    tid: Tid,
    name: &Bytes,
    slot: &FileText,
) -> Result<(), NoMemory>
    ensures { OnOk result (names.new ≡ add_name tid names.old (name.now, slot.now)) }
{
    if slot.is_seen(tid) {
        names.push(name.copy()?)?;
    }
    Ok(())
}

/// Adds changes that write the committed text as a file, where one stands under the name.
fn add_slot(
    alloc: Global,
    changes: &mut Changes,
    name: &Bytes,
    slot: &FileText,
) -> Result<(), NoMemory>
    ensures { OnOk result (AddsFiles (files_in ((name.now, slot.now) ∷ [])) changes.old changes.new) }
{
    if let Some(text) = slot.committed(alloc)? {
        add_file(alloc, changes, name, text.as_slice())?;
    }
    Ok(())
}
