//! The audit server of a node: notes that transactions add at the end of a list.
#![tactic(auto)]

mod audit;
mod notes;

pub use audit::Audit;
