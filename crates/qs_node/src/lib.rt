//! A node: it makes a step for each event, and is opened again from its log.
//!
//! How a node is opened again, and what it does as an incarnation of it or of another node begins, stands in `closing`,
//! `taking_up`, `resuming` and `restarting`; what clients command, in `beginning`, `owning`, `borrowing` and `requesting`,
//! and while their commands stay open, in `waiting`.
//! The only error of each function there is a refusal of memory; what the node keeps for its clients as it was accepted
//! stands after it too.
#![tactic(auto)]

mod beginning;
mod borrowing;
mod closing;
mod commanding;
mod counting;
mod happening;
mod node;
mod owning;
mod requesting;
mod restarting;
mod resuming;
mod taking_up;
mod waiting;

pub use node::{Node, NodeOpen};
