//! What a line of a script says by its words alone: lines, words and numbers; the values that a script
//! and the end of a run are.
#![tactic(auto)]

mod command_lines;
mod head_lines;
mod line;
mod number;
mod script;
mod spelling;
mod statement;
mod stating;
mod status;

pub use line::{is_word, next_line};
pub use number::{number_of, numbers_have_one_spelling};
pub use script::{FaultLine, Planned, Quota, Script, Seat};
pub use statement::Statement;
pub use stating::line_states;
pub use status::{ScriptFault, Status, Waiting};
