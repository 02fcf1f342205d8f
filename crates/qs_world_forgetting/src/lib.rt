//! What stays the same where a node knows of fewer Commits, and its log has less of what is over.
#![tactic(auto)]

mod entries;
mod restarts;
mod steps;

pub use entries::entries_are_the_same;
pub use restarts::{nodes_rise_the_same, restarts_are_the_same, thin_restarts_do_the_same};
pub use steps::steps_are_the_same;
