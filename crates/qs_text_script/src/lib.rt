//! What a run is asked for, and how it ended, as texts: the words, the script, and the line of its status.
#![tactic(auto)]

mod clashing;
mod command;
mod ending;
mod form;
mod gathering;
mod label_index;
mod label_set;
mod limits;
mod open;
mod reading;
mod words;

pub use ending::{StatusLine, lawful_text, status_line};
pub use form::{Form, WordsFault};
pub use qs_book_script::{
    FaultLine, Planned, Quota, Script, ScriptFault, Seat, Status, Waiting, number_of,
    numbers_have_one_spelling,
};
pub use reading::{ScriptFailed, read_script};
pub use words::read_words;
