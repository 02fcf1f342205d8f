//! Reads a history.
ghost use Rattle.std.specs.Prelude.{◌≡◌, ◌≤◌, ◌+◌, ℕ, List, length, IfOk, IsErrOf, OnOk, MatchResult};
ghost use Rattle.qs_book_journal.specs.declared.entry.Entry.{Entry};
ghost use Rattle.qs_book_machine.specs.declared.opened.Opened.{Opened};
ghost use Rattle.qs_book_script.specs.Lines.{lines_of};
ghost use Rattle.qs_text_history.specs.Journal.{IsFault, IsJournal, opening_lines};
ghost use Rattle.qs_text_history.specs.Inner.Read.{IsRead};
ghost use Rattle.qs_text_history.specs.Inner.Reader.{reading_of, Knows};
ghost use Rattle.qs_text_history.specs.Reading.{at_start, opened_of, Reads};

use crate::journal::Journal;
use crate::lines::next_line;
use crate::reader::{HistoryReader, close};
use qs_base::NoMemory;
use std::alloc::Global;

/// The most bytes of a history.
pub const HISTORY_LIMIT: usize = 67_108_864;

/// Why a text is not read.
#[derive(Clone, Copy)]
pub enum JournalFailed {
    /// It is no history: the number, from 1, of the first line that can't follow those before it,
    /// that holds a byte past the limit, or that is missing at the end.
    Fault { line: u32 },
    /// Memory was asked for and refused.
    NoMemory,
}

impl From<NoMemory> for JournalFailed {
    ghost use Rattle.qs_text_history.specs.declared.reading.JournalFailed.TheVariants as failures;

    ghost from_gives = { λ _ e. e ≡ failures.NoMemory };

    fn from(_error: NoMemory) -> JournalFailed {
        JournalFailed::NoMemory
    }
}

/// Reads a history: `nodes N`, the opening of each node, and a line for each entry.
///
/// A fault comes exactly where the text is no history or is longer than `HISTORY_LIMIT` bytes.
pub fn read_journal(alloc: Global, text: &[u8]) -> Result<Journal, JournalFailed>
    // What is read is a history, and its lines are those of the text, which is within the limit.
    ensures ok { IfOk result (λ journal. IsJournal (lines_of text.now) journal.opened journal.entries) }
    ensures first { IfOk result (λ journal. journal.first ≡ length (opening_lines journal.opened) + 1) }
    ensures limit { OnOk result (length text.now ≤ 67108864) }
    // Where the lines of a text within the limit are those of a history, it is read as that one.
    ensures back { (opened : List Opened) (entries : List Entry) → IsJournal (lines_of text.now) opened entries → length text.now ≤ 67108864
        → MatchResult result (λ journal. (journal.opened ≡ opened) × (journal.entries ≡ entries)) (λ failed. failed ≡ JournalFailed.NoMemory) }
    // A fault tells the first line that can't follow, that is past the limit or that is missing.
    ensures fault { (line : ℕ) → IsErrOf result (JournalFailed.Fault line) → IsFault text.now line }
{
    read_whole(alloc, text)
}

/// Reads a history, as far as its lines lead.
fn read_whole(alloc: Global, text: &[u8]) -> Result<Journal, JournalFailed>
    ensures read { IfOk result (λ journal. IsRead text.now journal) }
    ensures limit { OnOk result (length text.now ≤ 67108864) }
    ensures fault { (line : ℕ) → IsErrOf result (JournalFailed.Fault line) → IsFault text.now line }
{
    let read = read_lines(alloc, text)?;
    if !read.reader.is_open() {
        let line = read.count + 1;
        drop(read);
        return Err(JournalFailed::Fault { line });
    }
    let journal = finish(read)?;
    Ok(journal)
}

/// The history of lines that were read to their end.
fn finish(read: ReadLines) -> Result<Journal, NoMemory>
    requires entries { length read.reader.entries ≤ read.count }
    requires few { read.count ≤ 67108864 }
    ensures opened { IfOk result (λ journal. journal.opened ≡ opened_of (reading_of read.reader)) }
    ensures entries { IfOk result (λ journal. journal.entries ≡ read.reader.entries) }
    ensures first { IfOk result (λ journal. journal.first + length read.reader.entries ≡ read.count + 1) }
{
    let ReadLines { mut reader, count } = read;
    if let Err(refused) = close(&mut reader.done, &mut reader.current) {
        drop(reader);
        return Err(refused);
    }
    let HistoryReader {
        done,
        current,
        entries,
        begun,
        ..
    } = reader;
    drop(current);
    drop(begun);
    let first = count - entries.len() as u32 + 1;
    Ok(Journal {
        opened: done,
        entries,
        first,
    })
}

/// All lines of a text, read.
#[derive(Drop)]
pub struct ReadLines {
    /// What they say.
    pub reader: HistoryReader,
    /// How many there are.
    pub count: u32,
}

/// Reads all lines of a text, up to the first that can't follow or that holds a byte past the limit.
pub fn read_lines(alloc: Global, text: &[u8]) -> Result<ReadLines, JournalFailed>
    ensures reads { IfOk result (λ read. Reads at_start (lines_of text.now) (reading_of read.reader)) }
    ensures count { IfOk result (λ read. read.count ≡ length (lines_of text.now)) }
    ensures entries { IfOk result (λ read. length read.reader.entries ≤ read.count) }
    ensures few { IfOk result (λ read. read.count ≤ 67108864) }
    ensures limit { OnOk result (length text.now ≤ 67108864) }
    ensures fault { (line : ℕ) → IsErrOf result (JournalFailed.Fault line) → IsFault text.now line }
{
    let mut reader = HistoryReader::new(alloc);
    match read_on(alloc, &mut reader, text) {
        Ok(count) => Ok(ReadLines { reader, count }),
        Err(failed) => {
            drop(reader);
            Err(failed)
        }
    }
}

/// Reads them with a reader that read nothing, and tells how many there are. It owns nothing, as
/// what a function owns is let go at each place where it may fail.
fn read_on(alloc: Global, reader: &mut HistoryReader, text: &[u8]) -> Result<u32, JournalFailed>
    requires start { reading_of reader.old ≡ at_start }
    requires knows { Knows reader.old.begun reader.old.entries }
    ensures reads { OnOk result (Reads at_start (lines_of text.now) (reading_of reader.new)) }
    ensures count { IfOk result (λ count. count ≡ length (lines_of text.now)) }
    ensures entries { IfOk result (λ count. length reader.new.entries ≤ count) }
    ensures few { IfOk result (λ count. count ≤ 67108864) }
    ensures limit { OnOk result (length text.now ≤ 67108864) }
    ensures fault { (line : ℕ) → IsErrOf result (JournalFailed.Fault line) → IsFault text.now line }
{
    let mut rest = text;
    let mut count: u32 = 0;
    while !rest.is_empty() {
        let (line, after) = next_line(rest);
        if HISTORY_LIMIT < text.len() - after.len() {
            return Err(JournalFailed::Fault { line: count + 1 });
        }
        let taken = reader.next(alloc, line)?;
        if !taken {
            return Err(JournalFailed::Fault { line: count + 1 });
        }
        count += 1;
        rest = after;
    }
    Ok(count)
}
