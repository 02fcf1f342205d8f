//! What a run of many nodes leaves on its disks: another run may begin over them, whichever image a power cut leaves of each.
#![tactic(auto)]

mod disks;
mod left;
mod packets;
mod standing;

pub use disks::{disks_are_read, fresh_disks_stand_together, touched_disks_stay_coherent};
pub use left::{refused_runs_leave_coherent_disks, runs_follow_runs, runs_leave_coherent_disks};
pub use packets::packet_runs_leave_coherent_logs;
pub use standing::{
    packet_runs_leave_standing_logs, refused_runs_leave_standing_disks, runs_leave_standing_disks,
};
