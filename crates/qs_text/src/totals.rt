//! Counts of the transactions that were begun in a run.
ghost use Rattle.std.specs.Prelude.{◌≡◌};
ghost use Rattle.std.specs.List.{count_by};
ghost use Rattle.qs_text.specs.Output.{transactions_of, is_begun, is_committed, is_aborted, is_restart};

use qs_book::Book;
use qs_book_journal::{Act, Entry};
use qs_book_machine::Cell;
use qs_book_transactions::Transaction;

/// How many transactions were begun.
pub fn begun(book: &Book) -> usize
    ensures { result ≡ count_by is_begun (transactions_of book.now) }
{
    book.transactions()
        .values()
        .filter(|tx| is_begun(*tx))
        .count()
}

/// How many of them are committed.
pub fn committed(book: &Book) -> usize
    ensures { result ≡ count_by is_committed (transactions_of book.now) }
{
    book.transactions()
        .values()
        .filter(|tx| is_committed(*tx))
        .count()
}

/// How many of them are aborted.
pub fn aborted(book: &Book) -> usize
    ensures { result ≡ count_by is_aborted (transactions_of book.now) }
{
    book.transactions()
        .values()
        .filter(|tx| is_aborted(*tx))
        .count()
}

/// How many times a node was restarted.
pub fn restarts(history: &[Entry]) -> usize
    ensures { result ≡ count_by is_restart history.now }
{
    history.iter().filter(|entry| is_restart(*entry)).count()
}

/// Whether the transaction was begun in this run.
fn is_begun(tx: &Transaction) -> bool
    ensures { result ≡ is_begun tx.now }
{
    tx.label().is_some()
}

/// Whether the transaction was begun in this run and is committed.
fn is_committed(tx: &Transaction) -> bool
    ensures { result ≡ is_committed tx.now }
{
    is_begun(tx) && matches!(tx.cell(), Cell::Commit)
}

/// Whether the transaction was begun in this run and is aborted.
fn is_aborted(tx: &Transaction) -> bool
    ensures { result ≡ is_aborted tx.now }
{
    is_begun(tx) && matches!(tx.cell(), Cell::Abort)
}

/// Whether the entry restarts a node.
fn is_restart(entry: &Entry) -> bool
    ensures { result ≡ is_restart entry.now }
{
    matches!(&entry.act, Act::Restart { .. })
}
