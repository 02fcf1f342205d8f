//! Runs of single nodes, merged into one run of the world over packets.
#![tactic(auto)]

mod merging;
mod reaching;
mod splitting;

pub use merging::{cells_tell_of_one_run, local_runs_merge};
pub use reaching::{local_runs_go_on, moves_may_be_made};
pub use splitting::runs_split;
