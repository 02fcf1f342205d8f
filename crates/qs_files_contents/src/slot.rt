//! What stands under one name.
ghost use Rattle.std.specs.Prelude.{◌≡◌, IfOk, IfSome, OnOk, OnErr, is_some};
ghost use Rattle.std.specs.Option.{option_copied};
ghost use Rattle.qs_files_contents.specs.Texts.{flat, joined, text_bytes};
ghost use Rattle.qs_ops.specs.Files.{or_else};
ghost use Rattle.qs_files_contents.specs.Slots.{new_slot, is_empty_slot, placed, slot_changed, finished, tidied, ended, slot_read, slot_unread, reader_at, edit_at, first_other, is_edit, is_read, look_at, seen_at, kept_at, text_at};

use crate::edit::{Change, Edit};
use crate::text::{Text, bytes_of, length, written};
use qs_base::{Bytes, NoMemory, Tid};
use qs_base_map::Map;
use std::alloc::Global;

/// What a transaction finds that looks at a text.
#[derive(Drop)]
pub enum Look {
    /// Another is about to change the text; this is the least of these.
    Held { by: Tid },
    /// Nobody else is, and it sees this text.
    Free { text: Option<Bytes> },
}

/// What stands under a name: the committed text, what each transaction is about to make of it, and
/// which transactions read it.
#[derive(Drop)]
pub struct FileText {
    pub text: Option<Text>,
    pub edits: Map<Tid, Edit>,
    pub readers: Map<Tid, bool>,
}

impl FileText {
    /// Nothing. It takes no memory.
    pub fn new(alloc: Global) -> FileText
        ensures { result ≡ new_slot }
    {
        FileText {
            text: None,
            edits: Map::new(alloc),
            readers: Map::new(alloc),
        }
    }

    /// Whether nothing stands there.
    pub fn is_empty(&self) -> bool
        ensures { result ≡ is_empty_slot self.now }
    {
        self.text.is_none() && self.edits.iter().len() == 0 && self.readers.iter().len() == 0
    }

    /// The committed text, unless the transaction replaces it.
    fn kept(&self, tid: Tid) -> Option<&Text>
        ensures { option_copied result ≡ kept_at self.now tid }
    {
        match self.edits.get(&tid) {
            Some(edit) if edit.replaces => None,
            _ => self.text.as_ref(),
        }
    }

    /// The text that the transaction adds.
    fn added(&self, tid: Tid) -> Option<&Text>
        ensures { option_copied result ≡ (edit_at self.now.edits tid).text }
    {
        match self.edits.get(&tid) {
            Some(edit) => edit.text.as_ref(),
            None => None,
        }
    }

    /// The committed text.
    pub fn committed(&self, alloc: Global) -> Result<Option<Bytes>, NoMemory>
        ensures { IfOk result (λ text. text ≡ text_at self.now) }
    {
        match &self.text {
            Some(text) => Ok(Some(bytes_of(alloc, text)?)),
            None => Ok(None),
        }
    }

    /// How many bytes it has; `None` only where they are more than a `usize` can tell.
    pub fn committed_length(&self) -> Option<usize>
        ensures { IfSome result (λ n. n ≡ text_bytes (text_at self.now)) }
    {
        match &self.text {
            Some(text) => text.len(),
            None => Some(0),
        }
    }

    /// The text that the transaction sees.
    pub fn seen(&self, alloc: Global, tid: Tid) -> Result<Option<Bytes>, NoMemory>
        ensures { IfOk result (λ text. text ≡ seen_at self.now tid) }
    {
        written(alloc, self.kept(tid), self.added(tid))
    }

    /// How many bytes it has; `None` only where they are more than a `usize` can tell.
    pub fn length(&self, tid: Tid) -> Option<usize>
        ensures { IfSome result (λ n. n ≡ text_bytes (seen_at self.now tid)) }
    {
        length(self.kept(tid), self.added(tid))
    }

    /// Whether the transaction sees a text.
    pub fn is_seen(&self, tid: Tid) -> bool
        ensures { result ≡ is_some (seen_at self.now tid) }
    {
        self.kept(tid).is_some() || self.added(tid).is_some()
    }

    /// The least transaction but this one that is about to change the text.
    pub fn other_changer(&self, me: Tid) -> Option<Tid>
        ensures { result ≡ first_other is_edit me self.now.edits }
    {
        for entry in self.edits.iter() {
            if *entry.0 != me && !entry.1.is_none() {
                return Some(*entry.0);
            }
        }
        None
    }

    /// What the transaction finds that looks at the text.
    pub fn look(&self, alloc: Global, tid: Tid) -> Result<Look, NoMemory>
        ensures { IfOk result (λ look. look ≡ look_at self.now tid) }
    {
        match self.other_changer(tid) {
            Some(by) => Ok(Look::Held { by }),
            None => Ok(Look::Free {
                text: self.seen(alloc, tid)?,
            }),
        }
    }

    /// The least transaction but this one that read the text.
    fn other_reader(&self, me: Tid) -> Option<Tid>
        ensures { result ≡ first_other is_read me self.now.readers }
    {
        for entry in self.readers.iter() {
            if *entry.0 != me && *entry.1 {
                return Some(*entry.0);
            }
        }
        None
    }

    /// Who keeps a change by the transaction back: the least other that is about to change the text, else the
    /// least other that read it.
    pub fn holder(&self, me: Tid) -> Option<Tid>
        ensures { result ≡ or_else (first_other is_edit me self.now.edits) (first_other is_read me self.now.readers) }
    {
        match self.other_changer(me) {
            Some(other) => Some(other),
            None => self.other_reader(me),
        }
    }

    /// Makes room for changes of the transaction. After a refusal all is as it was.
    pub fn place(&mut self, tid: Tid) -> Result<(), NoMemory>
        ensures ok { OnOk result (self.new ≡ placed tid self.old) }
        ensures err { OnErr result (self.new ≡ self.old) }
    {
        if self.edits.has(&tid) {
            return Ok(());
        }
        self.edits.put(tid, Edit::none())
    }

    /// One more change of a transaction that room was made for. It takes no memory.
    pub fn change(&mut self, tid: Tid, change: Change)
        ensures { self.new ≡ slot_changed tid change self.old }
    {
        if let Some(edit) = self.edits.get_mut(&tid) {
            edit.change(change);
        }
    }

    /// The transaction changes nothing any more; where it commits, what it was about to make of the
    /// text is committed. Its room stays. It takes no memory.
    pub fn finish(&mut self, tid: Tid, commits: bool)
        ensures { self.new ≡ finished tid commits self.old }
    {
        let Some(edit) = self.edits.get_mut(&tid) else {
            return;
        };
        let edit = std::mem::replace(edit, Edit::none());
        if commits {
            edit.apply(&mut self.text);
        }
    }

    /// Gives back the room of a transaction that changes nothing. It takes no memory.
    pub fn tidy(&mut self, tid: Tid)
        ensures { self.new ≡ tidied tid self.old }
    {
        let idle = match self.edits.get(&tid) {
            Some(edit) => edit.is_none(),
            None => true,
        };
        if idle {
            self.edits.remove(&tid);
        }
    }

    /// The transaction changes nothing any more, and its room is given back. It takes no memory.
    pub fn end(&mut self, tid: Tid, commits: bool)
        ensures { self.new ≡ ended tid commits self.old }
    {
        self.finish(tid, commits);
        self.tidy(tid);
    }

    /// Whether the transaction read the text.
    pub fn is_reader(&self, tid: Tid) -> bool
        ensures { result ≡ reader_at self.now.readers tid }
    {
        match self.readers.get(&tid) {
            Some(read) => *read,
            None => false,
        }
    }

    /// The transaction read the text. Whether it had read it before comes back. After a refusal all is as
    /// it was.
    pub fn read(&mut self, tid: Tid) -> Result<bool, NoMemory>
        ensures ok { OnOk result (self.new ≡ slot_read tid self.old) }
        ensures err { OnErr result (self.new ≡ self.old) }
        ensures before { IfOk result (λ before. before ≡ reader_at self.old.readers tid) }
    {
        let before = self.is_reader(tid);
        self.readers.put(tid, true)?;
        Ok(before)
    }

    /// The transaction did not read the text any more. It takes no memory.
    pub fn unread(&mut self, tid: Tid)
        ensures { self.new ≡ slot_unread tid self.old }
    {
        self.readers.remove(&tid);
    }
}
