//! What stands under one name of a map, made, changed or taken out.
ghost use Rattle.std.specs.Prelude.{◌≡◌, IfOk, OnOk, OnErr};
ghost use Rattle.qs_files_contents.specs.Slots.{placed, finished, tidied, ended, reader_at, slot_read, slot_unread, at_slot, put_slot, slot_or_new, is_empty_slot, swept, change_by, unread_name};
ghost use Rattle.qs_files_contents.specs.Sums.{IsCommitted};

use crate::counting::replaced;
use crate::prepared::Prepared;
use crate::slot::FileText;
use qs_base::{Bytes, Copied, NoMemory, Tid};
use qs_base_map::Map;
use std::alloc::Global;

/// What stands under names.
pub type Names = Map<Bytes, FileText>;

/// Makes room for a change of the transaction. After a refusal all is as it was.
#[tactic(auto, using(std::proofs::lemmas::Map::Steps::set_value_same))]
pub fn place(alloc: Global, names: &mut Names, name: &Bytes, tid: Tid) -> Result<(), NoMemory>
    ensures ok { OnOk result (names.new ≡ put_slot (placed tid) name.now names.old) }
    ensures err { OnErr result (names.new ≡ names.old) }
{
    match names.get_mut(name) {
        Some(slot) => slot.place(tid),
        None => {
            let mut slot = FileText::new(alloc);
            slot.place(tid)?;
            names.put(name.copy()?, slot)
        }
    }
}

/// One more change of a transaction that room was made for. It takes no memory.
pub fn change(names: &mut Names, change: Prepared, tid: Tid)
    ensures { names.new ≡ change_by tid names.old change }
{
    let Prepared { name, change } = change;
    if let Some(slot) = names.get_mut(&name) {
        slot.change(tid, change);
    }
}

/// The transaction does not change the text any more; where it commits, what it was about to make
/// of it is committed. Its room stays. Of all committed bytes that are passed those of after it come
/// back; `None` only where one count was not told. It takes no memory.
pub fn finish(
    names: &mut Names,
    committed: Option<usize>,
    name: &Bytes,
    tid: Tid,
    commits: bool,
) -> Option<usize>
    ensures names { names.new ≡ at_slot (finished tid commits) name.now names.old }
    ensures committed { IsCommitted names.old committed → IsCommitted names.new result }
{
    let Some(slot) = names.get_mut(name) else {
        return committed;
    };
    let before = slot.committed_length();
    slot.finish(tid, commits);
    replaced(committed, before, slot.committed_length())
}

/// Gives back the room of a transaction that changes nothing. It takes no memory.
pub fn tidy(names: &mut Names, name: &Bytes, tid: Tid)
    ensures { names.new ≡ swept name.now (at_slot (tidied tid) name.now names.old) }
{
    if tidy_slot(names, name, tid) {
        names.remove(name);
    }
}

/// The same with the slot left, and whether nothing stands there then.
fn tidy_slot(names: &mut Names, name: &Bytes, tid: Tid) -> bool
    ensures names { names.new ≡ at_slot (tidied tid) name.now names.old }
    ensures empty { result ≡ is_empty_slot (slot_or_new names.new name.now) }
{
    match names.get_mut(name) {
        Some(slot) => {
            slot.tidy(tid);
            slot.is_empty()
        }
        None => true,
    }
}

/// The transaction does not change the text any more, and its room is given back: `finish` and `tidy`
/// with one search. It takes no memory.
pub fn end(
    names: &mut Names,
    committed: Option<usize>,
    name: &Bytes,
    tid: Tid,
    commits: bool,
) -> Option<usize>
    ensures names { names.new ≡ swept name.now (at_slot (ended tid commits) name.now names.old) }
    ensures committed { IsCommitted names.old committed → IsCommitted names.new result }
{
    let mut after = committed;
    if end_slot(names, &mut after, name, tid, commits) {
        names.remove(name);
    }
    after
}

/// The same with the slot left, and whether nothing stands there then.
fn end_slot(
    names: &mut Names,
    committed: &mut Option<usize>,
    name: &Bytes,
    tid: Tid,
    commits: bool,
) -> bool
    ensures names { names.new ≡ at_slot (ended tid commits) name.now names.old }
    ensures committed { IsCommitted names.old committed.old → IsCommitted names.new committed.new }
    ensures empty { result ≡ is_empty_slot (slot_or_new names.new name.now) }
{
    match names.get_mut(name) {
        Some(slot) => {
            let before = slot.committed_length();
            slot.end(tid, commits);
            *committed = replaced(*committed, before, slot.committed_length());
            slot.is_empty()
        }
        None => true,
    }
}

/// The transaction read the text. Whether it had read it before comes back. After a refusal all is as it
/// was.
#[tactic(auto, using(std::proofs::lemmas::Map::Steps::set_value_same))]
pub fn read(alloc: Global, names: &mut Names, name: &Bytes, tid: Tid) -> Result<bool, NoMemory>
    ensures ok { OnOk result (names.new ≡ put_slot (slot_read tid) name.now names.old) }
    ensures err { OnErr result (names.new ≡ names.old) }
    ensures before { IfOk result (λ before. before ≡ reader_at (slot_or_new names.old name.now).readers tid) }
{
    match names.get_mut(name) {
        Some(slot) => slot.read(tid),
        None => {
            let mut slot = FileText::new(alloc);
            slot.read(tid)?;
            names.put(name.copy()?, slot)?;
            Ok(false)
        }
    }
}

/// The transaction did not read the text any more. It takes no memory.
pub fn unread(names: &mut Names, name: &Bytes, tid: Tid)
    ensures { names.new ≡ unread_name tid names.old name.now }
{
    if unread_slot(names, name, tid) {
        names.remove(name);
    }
}

/// The same with the slot left, and whether nothing stands there then.
fn unread_slot(names: &mut Names, name: &Bytes, tid: Tid) -> bool
    ensures names { names.new ≡ at_slot (slot_unread tid) name.now names.old }
    ensures empty { result ≡ is_empty_slot (slot_or_new names.new name.now) }
{
    match names.get_mut(name) {
        Some(slot) => {
            slot.unread(tid);
            slot.is_empty()
        }
        None => true,
    }
}
