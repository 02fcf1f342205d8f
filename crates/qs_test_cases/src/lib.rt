//! Cases of a test, read from rows of text: what a run is given, and what may come of it. They stand apart from the program
//! that runs them, so that they are proved before what it runs is.
#![tactic(auto)]

mod ends;
mod memory;
mod row;

pub use ends::End;
pub use memory::made;
pub use row::Row;
