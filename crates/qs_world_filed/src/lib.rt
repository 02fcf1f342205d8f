//! Every run says of files what its script has set, and keeps to its quotas; and what it issues and serves of their notes.
#![tactic(auto)]

mod notes;
mod reads;
mod runs;
mod steps;

pub use notes::{
    replies_tell_notes, runs_issue_what_they_note, runs_tell_what_is_noted, served_notes_are_told,
};
pub use reads::{entries_leave_the_setting, parts_are_all};
pub use runs::{
    runs_keep_quotas, runs_keep_what_is_set, runs_note_votes, runs_without_audit_keep_files_rules,
};
pub use steps::{steps_keep_quotas, steps_say_what_is_set};
