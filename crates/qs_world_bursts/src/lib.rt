//! Bursts of acts, in which the sites of a run go on side by side, each in a thread of its own, with rounds between them: in the world over packets.
#![tactic(auto)]

mod acting;
mod threads;

pub use acting::{acts_tell_of_links, links_stay_told_through_acts, refused_acts_keep_plans};
pub use threads::{
    bursts_go_on, refused_bursts_leave_cells, rounds_behind_bursts_are_runs_of_the_world,
};
