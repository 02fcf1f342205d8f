//! Tools for operators: the checker of histories. The reader is passed on.
#![tactic(auto)]

mod checking;

pub use checking::check;
pub use qs_text_history::{
    HISTORY_LIMIT, Journal, JournalFailed, no_history_has_a_fault, one_text_is_one_history,
    read_journal,
};
