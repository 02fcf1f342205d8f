//! A node over its log as a host of the world, and its clients in a world of one node.
#![tactic(auto)]

mod in_world;
mod lines;

pub use in_world::hosts_of_the_world;
pub use lines::{clients_go_on, clients_stay_shown};
