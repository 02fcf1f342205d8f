//! A history as a value: what the nodes' logs held, and the entries.

use qs_base::List;
use qs_book_journal::Entry;
use qs_book_machine::Opened;

/// What the text of a history says.
#[derive(Drop)]
pub struct Journal {
    /// What the log of each node held, by number.
    pub opened: List<Opened>,
    /// The entries, in order.
    pub entries: List<Entry>,
    /// The line of the first entry, or the one after the last line where there is none.
    pub first: u32,
}
