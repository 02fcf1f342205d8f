//! The course of a run in code: what its script and its journal so far say, as far as the next entry hangs on it.
#![tactic(auto)]

mod borrowing;
mod client;
mod clients;
mod course;
mod looking;
mod nodes;

pub use client::ClientCourse;
pub use course::Course;
pub use looking::{client_of, owner_of};
pub use nodes::{DEFAULT_QUOTA, is_right_after};
