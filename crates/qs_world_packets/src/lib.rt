//! The world of nodes over packets, which links may lose, repeat, hold and reorder.
#![tactic(auto)]

mod packet_lawful;
mod packet_runs;
mod rows;
mod sessions;

pub use packet_lawful::journals_are_lawful;
pub use packet_runs::{every_run, nodes_agree};
pub use rows::{plays, row_gone, row_remote, row_reordered};
pub use sessions::sessions_are_plain;
