//! Sessions: one end of the ordered channels between two nodes, out of packets.
#![tactic(auto)]

pub mod laws;
mod posting;
mod session;
mod taken;

pub use posting::{hear, post, tick};
pub use session::Session;
pub use taken::Taken;
