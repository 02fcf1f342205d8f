//! What the cells of a run do with the links between their nodes, told by their traces.
#![tactic(auto)]

mod between;
mod everywhere;
mod telling;

pub use between::{links_bring_by_plan, links_go_on_as_told};
pub use everywhere::links_stay_told;
pub use telling::{cells_tell_of_links, cells_tell_of_takes};
