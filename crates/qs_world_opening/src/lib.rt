//! When a run may begin: over logs that are coherent, with any script that is read.
#![tactic(auto)]

mod laws;

pub use laws::{
    fresh_disks_are_coherent, logs_stay_coherent, scripts_are_of_their_runs, scripts_fit,
    what_fits_may_begin,
};
