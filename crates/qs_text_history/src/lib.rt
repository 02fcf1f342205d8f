//! The reader of histories: what the log of each node held, and the entries, line by line.
#![tactic(auto)]

mod acts;
mod answers;
mod begun;
mod causes;
mod identifiers;
mod journal;
mod laws;
mod lines;
mod operations;
mod reader;
mod reading;
mod restarts;
mod said;
mod words;

pub use journal::Journal;
pub use laws::{no_history_has_a_fault, one_text_is_one_history};
pub use reading::{HISTORY_LIMIT, JournalFailed, read_journal};
