//! Ordered channels between incarnations of nodes, out of packets that are lost, repeated and held.
#![tactic(auto)]

pub mod laws;
