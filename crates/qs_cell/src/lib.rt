//! The cell of a node: the node over its disk and log, with the crashes and restarts that a script asks for.
#![tactic(auto)]

mod cell;
mod opened;
mod running;
mod starting;
mod state;
mod stopped;

pub use cell::{NodeCell, Visited};
pub use opened::opened_with;
pub use qs_link::NodeEnds;
pub use running::{Fate, Running};
pub use starting::{CellOpen, NodePlan};
pub use state::{CellState, RestartFault};
pub use stopped::{Restarted, Stopped};
