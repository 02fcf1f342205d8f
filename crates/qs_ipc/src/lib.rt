//! The requests that wait at the servers of a node, and how many each served.
#![tactic(auto)]

mod delivery;
mod ipc;
mod queue;

pub use delivery::{Delivery, Refused, Why};
pub use ipc::Ipc;
pub use queue::Queue;
