//! The servers of a node, called by their numbers.
#![tactic(auto)]

mod servers;

pub use servers::Servers;
