//! Whether the journal of a run keeps to the run's script.
#![tactic(auto)]

mod fault;
mod laws;
mod rows;
mod values;

pub use fault::{Fault, Misfit, Rule};
pub use laws::no_misfit_means_conforming;
pub use rows::{crash_rows, file_rows, loan_rows, owner_rows};
pub use values::{CommandMade, Deed, Loan, Mark, NodeCourse, Sought};
