//! Reads a history line by line.
ghost use Rattle.std.specs.Prelude.{◌≡◌, ◌++◌, ◌∷◌, [], ◌==◌, ◌||◌, true, length, List, ℕ, Option, None, IfOk, OnOk};
ghost use Rattle.std.specs.Option.{option_copied, option_to_list};
ghost use Rattle.qs_base.specs.declared.identifiers.Tid.{Tid};
ghost use Rattle.qs_text_history.specs.Begun.{begun_as, begins_by, or_else};
ghost use Rattle.qs_text_history.specs.Inner.Begun.{label_in, tid_in, holder_by};
ghost use Rattle.qs_text_history.specs.Inner.Said.{said_of};
ghost use Rattle.qs_text_history.specs.Inner.Words.{words_of};
ghost use Rattle.qs_text_history.specs.Inner.Reader.{reading_of, Knows, taken, read_line, after_line};
ghost use Rattle.qs_text_history.specs.Reading.{at_start, may_follow, may_go_on, current_may, rises, rises_above, read_after, gone_on, current_after, opening, is_open, opened_of};

use crate::begun::BegunLabels;
use crate::said::{Said, said_of};
use crate::words::words_of;
use qs_base::{Bytes, List, NoMemory};
use qs_book_journal::{Act, Entry};
use qs_book_machine::Opened;
use qs_ops::File;
use std::alloc::Global;

/// What the lines that were read so far say.
#[derive(Drop)]
pub struct HistoryReader {
    /// How many nodes there are, 0 before the first line.
    pub nodes: u8,
    /// The nodes whose part was read to its end, by number.
    pub done: List<Opened>,
    /// The node whose part is being read.
    pub current: Option<Opened>,
    /// The entries.
    pub entries: List<Entry>,
    /// What they began.
    pub begun: BegunLabels,
}

impl HistoryReader {
    /// Before the first line. It takes no memory.
    pub fn new(alloc: Global) -> HistoryReader
        ensures start { reading_of result ≡ at_start }
        ensures knows { Knows result.begun result.entries }
    {
        HistoryReader {
            nodes: 0,
            done: List::new(alloc),
            current: None,
            entries: List::new(alloc),
            begun: BegunLabels::new(alloc),
        }
    }

    /// Takes the next line in and tells `true`, or tells `false` where the line may not follow.
    pub fn next(&mut self, alloc: Global, line: &[u8]) -> Result<bool, NoMemory>
        ensures read { IfOk result (λ taken. read_line (holder_by self.old.begun) (reading_of self.old) line.now ≡ after_line taken (reading_of self.new)) }
        ensures knows { Knows self.old.begun self.old.entries → IfOk result (λ taken. taken ≡ true → Knows self.new.begun self.new.entries) }
    {
        let Some(said) = self.said_by(alloc, line)? else {
            return Ok(false);
        };
        if !self.allows(&said) {
            drop(said);
            return Ok(false);
        }
        self.take(alloc, said)?;
        Ok(true)
    }

    /// What a line says here.
    fn said_by(&self, alloc: Global, line: &[u8]) -> Result<Option<Said>, NoMemory>
        ensures { IfOk result (λ said. said ≡ said_of (holder_by self.now.begun) (words_of line.now)) }
    {
        let words = words_of(alloc, line)?;
        said_of(alloc, &self.begun, words.as_slice())
    }

    /// Whether each node was read.
    pub fn is_open(&self) -> bool
        ensures { result ≡ is_open (reading_of self.now) }
    {
        0 < self.nodes && is_count(&self.done, &self.current, self.nodes)
    }

    /// Whether a line that says this may stand next.
    fn allows(&self, said: &Said) -> bool
        ensures { result ≡ may_follow (reading_of self.now) said.now }
    {
        match said {
            Said::Nodes { .. } => self.nodes == 0,
            Said::Node { number, .. } => {
                *number < self.nodes && is_count(&self.done, &self.current, *number)
            }
            Said::Line { .. } => self.is_open(),
            _ => current_may(self.current.as_ref(), said),
        }
    }

    /// Takes in what a line says that may stand next.
    fn take(&mut self, alloc: Global, said: Said) -> Result<(), NoMemory>
        ensures read { OnOk result (reading_of self.new ≡ read_after (reading_of self.old) said) }
        ensures knows { Knows self.old.begun self.old.entries → OnOk result (Knows self.new.begun self.new.entries) }
    {
        match said {
            Said::Nodes { count } => {
                self.nodes = count;
                Ok(())
            }
            Said::Node { inc, format, .. } => {
                close(&mut self.done, &mut self.current)?;
                self.current = Some(opening(alloc, inc, format));
                Ok(())
            }
            Said::Line { entry } => self.take_entry(entry),
            other => go_on(&mut self.current, other),
        }
    }

    /// Takes in an entry that may stand next.
    fn take_entry(&mut self, entry: Entry) -> Result<(), NoMemory>
        ensures read { OnOk result (reading_of self.new ≡ read_after (reading_of self.old) (Said.Line entry)) }
        ensures knows { Knows self.old.begun self.old.entries → OnOk result (Knows self.new.begun self.new.entries) }
    {
        if let Err(refused) = close(&mut self.done, &mut self.current) {
            drop(entry);
            return Err(refused);
        }
        match note_begin(&mut self.begun, &entry.act) {
            Ok(()) => self.entries.push(entry),
            Err(refused) => {
                drop(entry);
                Err(refused)
            }
        }
    }
}

/// Whether so many nodes were read.
fn is_count(done: &List<Opened>, current: &Option<Opened>, count: u8) -> bool
    ensures { result ≡ (length (done.now ++ option_to_list current.now) == count) }
{
    match current {
        None => done.len() == usize::from(count),
        Some(_) => 0 < count && done.len() == usize::from(count) - 1,
    }
}

/// Whether the part of a node that is being read goes on with this.
fn current_may(current: Option<&Opened>, said: &Said) -> bool
    ensures { result ≡ current_may (option_copied current.entry) said.now }
{
    match current {
        None => false,
        Some(node) => may_go_on(node, said),
    }
}

/// Whether the part of the node goes on with this.
fn may_go_on(node: &Opened, said: &Said) -> bool
    ensures { result ≡ may_go_on node.now said.now }
{
    match said {
        Said::File { name, .. } => {
            node.audit.is_empty()
                && (node.extra.is_empty()
                    && (node.committed.is_empty() && rises(name, &node.files)))
        }
        Said::Note { .. } => node.extra.is_empty() && node.committed.is_empty(),
        Said::Item { .. } => node.committed.is_empty(),
        Said::Commit { .. } => true,
        _ => false,
    }
}

/// Whether the name is above that of the last file.
fn rises(name: &Bytes, files: &List<File>) -> bool
    ensures { result ≡ rises name.now files.now }
{
    rises_above(name, files.as_slice().last())
}

/// Whether the name is above that of the file.
fn rises_above(name: &Bytes, last: Option<&File>) -> bool
    ensures { result ≡ rises_above name.now (option_copied last.entry) }
{
    match last {
        None => true,
        Some(file) => file.name.cmp(name).is_lt(),
    }
}

/// A node of which nothing more is known. It takes no memory.
fn opening(alloc: Global, inc: u64, format: u32) -> Opened
    ensures { result ≡ opening inc format }
{
    Opened {
        inc,
        format,
        files: List::new(alloc),
        audit: List::new(alloc),
        extra: List::new(alloc),
        pending: List::new(alloc),
        committed: List::new(alloc),
    }
}

/// Ends the part of the node that is being read.
pub fn close(done: &mut List<Opened>, current: &mut Option<Opened>) -> Result<(), NoMemory>
    ensures done { OnOk result (done.new ≡ done.old ++ option_to_list current.old) }
    ensures current { OnOk result (current.new ≡ None) }
{
    match current.take() {
        Some(node) => done.push(node),
        None => Ok(()),
    }
}

/// Adds to the part of the node that is being read.
fn go_on(current: &mut Option<Opened>, said: Said) -> Result<(), NoMemory>
    ensures { OnOk result (current.new ≡ current_after current.old said) }
{
    match current.as_mut() {
        Some(node) => add(node, said),
        None => {
            drop(said);
            Ok(())
        }
    }
}

/// Adds to the part of the node.
fn add(node: &mut Opened, said: Said) -> Result<(), NoMemory>
    ensures { OnOk result (node.new ≡ gone_on node.old said) }
{
    match said {
        Said::File { name, content } => node.files.push(File { name, content }),
        Said::Note { text } => node.audit.push(text),
        Said::Item { text } => node.extra.push(text),
        Said::Commit { tid } => node.committed.push(tid),
        other => {
            drop(other);
            Ok(())
        }
    }
}

/// Takes in what the act begins, if it begins a transaction.
fn note_begin(begun: &mut BegunLabels, act: &Act) -> Result<(), NoMemory>
    ensures labels { OnOk result ((other : List ℕ) → label_in begun.new other ≡ or_else (label_in begun.old other) (begun_as other act.now)) }
    ensures tids { OnOk result ((other : Tid) → tid_in begun.new other ≡ (tid_in begun.old other || begins_by other act.now)) }
{
    match act {
        Act::Begin { tid, label, .. } => begun.add(label, *tid),
        _ => Ok(()),
    }
}
