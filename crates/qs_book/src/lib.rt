//! The reference machine: one outcome cell for each transaction, against which every run is judged.
#![tactic(auto)]

mod book;
mod clauses;
mod found;
mod node;
mod opening;

pub use book::{Book, BookFault, is_new_vote};
pub use clauses::files_note;
pub use node::BookNode;
pub use qs_book_machine::{Asking, Causes, OnRecord, Opened, Owner, Pending, Reopened, Voter};
