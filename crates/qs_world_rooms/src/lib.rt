//! A run of many nodes leaves room in the log of each for all that is kept there, and no node stops for a full log.
#![tactic(auto)]

mod packets;
mod rooms;

pub use packets::packet_runs_leave_room;
pub use rooms::{roomy_disks_are_read, runs_leave_room, sites_stay_roomy};
