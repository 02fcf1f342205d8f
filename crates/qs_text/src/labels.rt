//! Answers under their lines, with the labels of the transactions that they name.
ghost use Rattle.std.specs.Prelude.{◌≡◌, ◌++◌, OnOk};
ghost use Rattle.std.specs.Option.{option_copied};
ghost use Rattle.qs_text_script.specs.Answers.{holder_label, told_text};
ghost use Rattle.qs_text.specs.Output.{label_of};

use crate::answers::{put, put_answer};
use qs_base::{Bytes, NoMemory, Tid};
use qs_book::Book;
use qs_ops::Answer;
use std::alloc::Global;

/// Adds the number of a line and the answer to its command.
pub fn put_told(
    alloc: Global,
    out: &mut Bytes,
    line: u32,
    answer: &Answer,
    book: &Book,
) -> Result<(), NoMemory>
    ensures { OnOk result (out.new ≡ out.old ++ told_text (label_of book.now) line answer.now) }
{
    put(out, format!(in alloc; "{line} ")?)?;
    put_answer(alloc, out, answer, holder_label(answer, book))
}

/// The label of the transaction that a busy answer names.
fn holder_label<'a>(answer: &Answer, book: &'a Book) -> Option<&'a Bytes>
    ensures { option_copied result ≡ holder_label (label_of book.now) answer.now }
{
    match answer {
        Answer::Busy { holder } => label_of(*holder, book),
        _ => None,
    }
}

/// The label under which a transaction was begun in this run.
fn label_of(tid: Tid, book: &Book) -> Option<&Bytes>
    ensures { option_copied result ≡ label_of book.now tid }
{
    book.transaction(tid)?.label()
}
