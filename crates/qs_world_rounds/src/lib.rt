//! The actors of one node of a run, its cell and its clients: as they begin, and as they are visited.
#![tactic(auto)]

mod actors;
mod faults;
mod lanes;
mod rounds;
mod seating;
mod visits;

pub use actors::Actors;
pub use faults::RoundFault;
pub use rounds::{Ending, RoundEnd};
pub use seating::{sits_at, start_at};
