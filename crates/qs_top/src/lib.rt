//! The top call: a script is read, run and printed, or a history is judged.
#![tactic(auto)]

mod asking;
mod checking;
mod judging;
mod nodes;
mod outcome;
mod running;
mod telling;
mod whole;

pub use judging::judged;
pub use outcome::Run;
pub use running::{run, run_script};
pub use telling::told;
