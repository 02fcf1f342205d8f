//! The texts of a run: the lines of its history, and its output. What it is asked for and how it ended is passed on.
#![tactic(auto)]

mod answers;
mod given;
mod journal;
mod labels;
mod operations;
mod output;
mod pieces;
mod totals;

pub use given::{Shown, given_text};
pub use journal::journal_text;
pub use output::out_text;
pub use qs_text_script::{
    FaultLine, Form, Planned, Quota, Script, ScriptFailed, ScriptFault, Seat, Status, StatusLine,
    Waiting, WordsFault, lawful_text, numbers_have_one_spelling, read_script, read_words,
    status_line,
};
