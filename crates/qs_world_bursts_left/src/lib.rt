//! What a run leaves by whichever schedule its rounds follow one another.
#![tactic(auto)]

mod bursts;
mod endings;

pub use bursts::{bursts_stay_roomy, rounds_behind_bursts_leave_room};
pub use endings::runs_leave_all;
