//! The course of a run's journal, beside what the clients and the nodes of its world hold.
#![tactic(auto)]

mod clients;
mod kinds;
mod worlds;

pub use clients::{
    answers_are_due, begins_go_on, commands_make_theirs, loans_and_issues_go, loans_go_together,
    replies_are_given, takes_go_on,
};
pub use kinds::{kinds_are_kept, lines_are_left};
pub use worlds::openings_are_on_course;
