//! The rounds of all sites of a run are, by what their cells tell, a run of the world over packets.
#![tactic(auto)]

mod lawful;
mod merging;
mod running;

pub use lawful::{nodes_may_begin, rounds_are_lawful};
pub use merging::{merge_journals, merge_steps};
pub use running::{
    nodes_begin, nodes_go_on, nodes_have_openings, refused_rounds_leave_cells,
    rounds_are_runs_of_the_world,
};
