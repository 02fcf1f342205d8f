//! One log per node: records in batches, each forced whole or not at all.
#![tactic(auto)]

mod area;
mod fault;
mod log;
mod opening;

pub use fault::{AppendFault, LogOpen, OpenFault};
pub use log::{Log, Lsn};
