//! The step of a node: what comes to it, what it keeps, and what it brings about.
#![tactic(auto)]

mod event;
mod node;
mod rows;
mod setting;
mod state;
mod trace;

pub use event::{ClientAnswer, Effects, Event, Sending};
pub use node::{NodeState, Work};
pub use rows::short_runs;
pub use setting::Setting;
pub use state::{Doings, Issued, OpenCommand};
pub use trace::{Did, Step};
