//! The sites of a run, each a node with its clients, bursts and rounds over them all, and what it begins with beside them.
#![tactic(auto)]

mod bursts;
mod carrying;
mod linking;
mod planned;
mod schedule;
mod sites;
mod turn;
mod turns;
mod visits;

pub use bursts::take_all;
pub use carrying::{carry_all, carry_links};
pub use linking::new_links;
pub use schedule::Schedule;
pub use sites::Sites;
pub use turn::Turn;
pub use turns::turns_of;
pub use visits::visit_turn;
