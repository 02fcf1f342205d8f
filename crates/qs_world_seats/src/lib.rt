//! A cell of a node among others as that node in the world over packets: what its cell tells is of a local run of the node, to a world that shows it.
#![tactic(auto)]

mod beginnings;
mod events;
mod going;
mod lanes;
mod sites;

pub use beginnings::cells_begin_in_the_world;
pub use events::{events_go_on_in_the_world, packets_aside_go_on_in_the_world};
pub use going::{seats_go_on, visits_of_seats_go_on};
pub use lanes::lanes_go_on;
pub use sites::{refused_sites_have_cells, sites_begin, sites_go_on};
