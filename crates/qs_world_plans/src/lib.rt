//! What a script asks of the nodes and clients of a run, in which order they are visited, how many rounds they
//! have, and who waits.
#![tactic(auto)]

mod order;
mod plan;
mod spending;
mod waits;

pub use order::{Orders, list_places};
pub use plan::{NODE, NODE_COUNT, commands_of, crashes_of, points_of, setting_of, stops_of};
pub use spending::{MOST_DISK_CRASHES, budget, budget_of, disk_crashes};
pub use waits::waiting_of;
