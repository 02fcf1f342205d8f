//! What the cells of a run tell by their traces, over links and sessions.
#![tactic(auto)]

mod sessions;
mod taking;
mod traced;

pub use sessions::{puts_go_on, sessions_are_ends};
pub use taking::{messages_are_taken, ticks_are_taken};
pub use traced::{links_bring_what_was_put, nodes_are_listed, traces_are_runs};
