//! Clients: the commands of a script are sent one by one, each once the one before it was answered.
#![tactic(auto)]

mod cell;
mod laws;
mod progress;

pub use cell::{ClientCell, ClientEnds};
pub use laws::{commands_in_order, ends_behind_its_lines};
pub use progress::Progress;
