//! The tables of the reference machine: what the servers of a node keep, found by index.
#![tactic(auto)]

mod claims;
mod commits;
mod contents;
mod counts;
mod edits;
mod free_reply;
mod holders;
mod locks;
mod refusal;
mod restarts;
mod serving;
mod shares;
mod staged;
mod table;
mod timers;
mod views;

pub use table::Table;
pub use timers::TimerTable;
