//! How the log of a node begins an incarnation, over a disk behind a fuse: as a run begins, and again after a power cut.
#![tactic(auto)]

mod counts;
mod incarnation;

pub use counts::FaultCounts;
pub use incarnation::{LogReopen, ReopenFault, begin_again, begin_run, not_begun};
