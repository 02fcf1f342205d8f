//! Sessions settle: what passes over two ends make of whatever a run left of them.
#![tactic(auto)]

pub mod laws;
