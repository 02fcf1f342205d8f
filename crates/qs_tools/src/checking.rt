//! The checker of histories.
ghost use Rattle.std.specs.Prelude.{◌≡◌, ◌↔◌, ◌+◌, ◌≤◌, None, IfOk, length};
ghost use Rattle.qs_book_machine.specs.Lawful.{IsLawful, broken, effect};
ghost use Rattle.qs_book_machine.specs.Opening.{opening};
ghost use Rattle.qs_tools.specs.Checked.{first_broken_line};

use qs_base::NoMemory;
use qs_book::{Book, BookFault};
use qs_book_journal::Entry;
use qs_text_history::Journal;
use std::alloc::Global;

/// Whether each entry of a history is a lawful step of the reference machine, from the opening that
/// the history tells: `None` where each is; else the line of the first entry that is not, and the
/// number of the first clause that this breaks. The only error is a refusal of memory.
#[tactic(auto, using(crate::proofs::CheckedLemmas::lawful_iff))]
pub fn check(alloc: Global, journal: &Journal) -> Result<Option<(u32, u16)>, NoMemory>
    requires { journal.now.first + length journal.now.entries ≤ 4294967295 }
    ensures found { IfOk result (λ found. found ≡ first_broken_line journal.now.first (opening journal.now.opened) journal.now.entries) }
    ensures lawful { (first_broken_line journal.now.first (opening journal.now.opened) journal.now.entries ≡ None) ↔ IsLawful (opening journal.now.opened) journal.now.entries }
{
    let mut book = Book::opening(alloc, journal.opened.as_slice())?;
    check_from(&mut book, journal.first, journal.entries.as_slice())
}

/// The first of these entries that is no lawful step, by its line; the first of them stands at `line`.
fn check_from(book: &mut Book, line: u32, entries: &[Entry]) -> Result<Option<(u32, u16)>, NoMemory>
    requires { line + length entries.now ≤ 4294967295 }
    ensures { IfOk result (λ found. found ≡ first_broken_line line book.old entries.now) }
{
    let mut at = line;
    let mut rest = entries;
    while let [entry, more @ ..] = rest {
        if let Some(clause) = broken_by(book, entry)? {
            return Ok(Some((at, clause)));
        }
        at += 1;
        rest = more;
    }
    Ok(None)
}

/// Takes an entry in; the first clause that it breaks, where it breaks one.
fn broken_by(book: &mut Book, entry: &Entry) -> Result<Option<u16>, NoMemory>
    ensures clause { IfOk result (λ clause. clause ≡ broken book.old entry.now) }
    ensures effect { IfOk result (λ clause. clause ≡ None → book.new ≡ effect book.old entry.now) }
{
    match book.apply(entry) {
        Ok(()) => Ok(None),
        Err(BookFault::Unlawful { clause }) => Ok(Some(clause)),
        Err(BookFault::NoMemory) => Err(NoMemory),
    }
}
