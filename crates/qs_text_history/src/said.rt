//! What the lines of a history say, one by one.
ghost use Rattle.std.specs.Prelude.{◌≡◌, IfOk, map, ℕ, Option};
ghost use Rattle.qs_text_history.specs.Inner.Acts.{entry_of};
ghost use Rattle.qs_text_history.specs.Inner.Begun.{holder_by};
ghost use Rattle.qs_text_history.specs.Inner.Lifts.{lift1};
ghost use Rattle.qs_text_history.specs.Inner.Said.{said_of, opening_of, nodes_of, node_of, are_titles, node_with, file_of, note_of, item_of, commit_of, within};

use crate::acts::entry_of;
use crate::begun::BegunLabels;
use crate::identifiers::tid_of;
use crate::words::{is, u8_of, u32_of, u64_of};
use qs_base::{Bytes, NoMemory, Tid};
use qs_book_journal::Entry;
use std::alloc::Global;

/// What a line says.
#[derive(Drop)]
pub enum Said {
    /// There are so many nodes.
    Nodes { count: u8 },
    /// The part of this node begins: it runs in this incarnation, over a disk of this format.
    Node { number: u8, inc: u64, format: u32 },
    /// The node has this file committed.
    File { name: Bytes, content: Bytes },
    /// The node has this note committed.
    Note { text: Bytes },
    /// The node's further server has this text committed.
    Item { text: Bytes },
    /// The node's log has a Commit of this transaction.
    Commit { tid: Tid },
    /// This entry was made.
    Line { entry: Entry },
}

/// What a line of these words says, behind these begins.
#[tactic(auto, unfolding(crate::specs::Inner::Said::said_of))]
pub fn said_of(
    alloc: Global,
    begun: &BegunLabels,
    words: &[&[u8]],
) -> Result<Option<Said>, NoMemory>
    ensures { IfOk result (λ said. said ≡ said_of (holder_by begun.now) (map (λ word. word.now) words.now)) }
{
    let [first, rest @ ..] = words else {
        return Ok(None);
    };
    if u64_of(*first).is_none() {
        return opening_of(alloc, *first, rest);
    }
    Ok(line_of(entry_of(alloc, begun, words)?))
}

/// The line of an entry.
fn line_of(entry: Option<Entry>) -> Option<Said>
    ensures { result ≡ lift1 Said.Line entry }
{
    let entry = entry?;
    Some(Said::Line { entry })
}

/// What a line of an opening says that begins with this word.
#[tactic(auto, unfolding(crate::specs::Inner::Said::opening_of))]
fn opening_of(alloc: Global, word: &[u8], rest: &[&[u8]]) -> Result<Option<Said>, NoMemory>
    ensures { IfOk result (λ said. said ≡ opening_of word.now (map (λ word. word.now) rest.now)) }
{
    if is(word, "nodes") {
        Ok(nodes_of(rest))
    } else if is(word, "node") {
        Ok(node_of(rest))
    } else if is(word, "file") {
        file_of(alloc, rest)
    } else if is(word, "note") {
        note_of(alloc, rest)
    } else if is(word, "item") {
        item_of(alloc, rest)
    } else if is(word, "commit") {
        Ok(commit_of(rest))
    } else {
        Ok(None)
    }
}

/// How many nodes there are.
fn nodes_of(words: &[&[u8]]) -> Option<Said>
    ensures { result ≡ nodes_of (map (λ word. word.now) words.now) }
{
    let [count] = words else {
        return None;
    };
    let count = count_within(u8_of(*count))?;
    Some(Said::Nodes { count })
}

/// The number of nodes, from 1 to 16.
fn count_within(count: Option<u8>) -> Option<u8>
    ensures { result ≡ within 17 count }
{
    let count = count?;
    if 0 < count && count < 17 {
        Some(count)
    } else {
        None
    }
}

/// The format of a disk, 1 or 2.
fn format_within(format: Option<u32>) -> Option<u32>
    ensures { result ≡ within 3 format }
{
    let format = format?;
    if 0 < format && format < 3 {
        Some(format)
    } else {
        None
    }
}

/// That the part of a node begins: `NUMBER inc INC format FORMAT`.
fn node_of(words: &[&[u8]]) -> Option<Said>
    ensures { result ≡ node_of (map (λ word. word.now) words.now) }
{
    let [number, one, inc, two, format] = words else {
        return None;
    };
    if are_titles(*one, *two) {
        let format = format_within(u32_of(*format));
        node_with(u8_of(*number), u64_of(*inc), format)
    } else {
        None
    }
}

/// Whether the words are `inc` and `format`.
fn are_titles(one: &[u8], two: &[u8]) -> bool
    ensures { result ≡ are_titles one.now two.now }
{
    is(one, "inc") && is(two, "format")
}

/// The beginning of the part of this node.
fn node_with(number: Option<u8>, inc: Option<u64>, format: Option<u32>) -> Option<Said>
    ensures { result ≡ node_with number inc format }
{
    let number = number?;
    let inc = inc?;
    let format = format?;
    Some(Said::Node {
        number,
        inc,
        format,
    })
}

/// A committed file.
fn file_of(alloc: Global, words: &[&[u8]]) -> Result<Option<Said>, NoMemory>
    ensures { IfOk result (λ said. said ≡ file_of (map (λ word. word.now) words.now)) }
{
    let [name, content] = words else {
        return Ok(None);
    };
    let name = Bytes::from_slice(alloc, *name)?;
    let content = Bytes::from_slice(alloc, *content)?;
    Ok(Some(Said::File { name, content }))
}

/// A committed note.
fn note_of(alloc: Global, words: &[&[u8]]) -> Result<Option<Said>, NoMemory>
    ensures { IfOk result (λ said. said ≡ note_of (map (λ word. word.now) words.now)) }
{
    let [text] = words else {
        return Ok(None);
    };
    let text = Bytes::from_slice(alloc, *text)?;
    Ok(Some(Said::Note { text }))
}

/// A committed text of the further server.
fn item_of(alloc: Global, words: &[&[u8]]) -> Result<Option<Said>, NoMemory>
    ensures { IfOk result (λ said. said ≡ item_of (map (λ word. word.now) words.now)) }
{
    let [text] = words else {
        return Ok(None);
    };
    let text = Bytes::from_slice(alloc, *text)?;
    Ok(Some(Said::Item { text }))
}

/// A transaction whose Commit the log has.
fn commit_of(words: &[&[u8]]) -> Option<Said>
    ensures { result ≡ commit_of (map (λ word. word.now) words.now) }
{
    let [tid] = words else {
        return None;
    };
    let tid = tid_of(*tid)?;
    Some(Said::Commit { tid })
}
