//! What a run answers.

use qs_base::List;
use qs_book_journal::Entry;
use qs_node_step::Step;
use qs_text::Status;

/// How a run ended, and what happened in it.
#[derive(Drop)]
pub struct Run {
    pub status: Status,
    /// All entries, in the order in which they were made.
    pub journal: List<Entry>,
    /// The steps of all nodes, in the order in which they were made.
    pub trace: List<Step>,
}
