//! The checker: judges the journal of a run, entry by entry, by the reference machine and the run's script.
#![tactic(auto)]

mod alike;
mod answering;
mod checker;
mod commands;
mod crashing;
mod fault;
mod judging;
mod lending;
mod stakes;

pub use checker::{Checker, first_misfit};
pub use fault::CheckFault;
pub use qs_book_conformance::{Fault, Misfit, Rule};
