//! The room of a log: how many bytes are free beside those that are kept for the transactions which are not ended, and that what
//! is kept is enough for the records of each step.
#![tactic(auto)]

mod fits;
mod logs;
mod opens;
mod unended;

pub use fits::steps_fit;
pub use logs::steps_find_room;
pub use opens::{logs_are_short, nodes_open_so, records_are_short};
pub use unended::{Boundary, Unended, boundary_of};
