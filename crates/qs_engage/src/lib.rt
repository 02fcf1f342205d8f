//! Whom a node answers to in one transaction, and which requests to and from other nodes are open.
#![tactic(auto)]

mod engage;
mod nodes;

pub use engage::{Engage, Engaged, PeerPart};
pub use nodes::{NODE_COUNT, Nodes, every_node};
