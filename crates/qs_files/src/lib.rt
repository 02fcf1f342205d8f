//! The file server of a node.
#![tactic(auto)]

mod files;
mod held;
mod holdings;
mod notes;

pub use files::Files;
