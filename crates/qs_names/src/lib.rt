//! The name server of a node: texts that are bound to names.
#![tactic(auto)]

mod names;

pub use names::Names;
