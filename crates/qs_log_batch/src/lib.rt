//! Batches of records: each under one digest, behind a gate that is opened last.
#![tactic(auto)]

mod area;
mod batch;
mod buffer;
mod fault;
mod laws;
mod parts;

pub use area::{FoundBatches, read_batches};
pub use batch::Batch;
pub use fault::BatchFault;
pub use laws::{broken_once, counted_on, counted_once, spelled_once};
