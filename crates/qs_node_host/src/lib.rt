//! A node over its log: each step's records are appended, and forced, before anything else of it is carried out.
#![tactic(auto)]

mod appending;
mod fault;
mod host;
mod laws;
mod spelled;

pub use fault::HostFault;
pub use host::{Host, HostOpen};
pub use laws::fresh_disks_are_roomy;
