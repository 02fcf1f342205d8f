//! A serial run of a script over the disks of its nodes: all in one thread, in rounds whose orders are drawn from a seed.
#![tactic(auto)]

mod places;
mod rounds;
mod serial;

pub use rounds::rounds_of;
pub use serial::{SerialRun, SiteTold, run_serial};
