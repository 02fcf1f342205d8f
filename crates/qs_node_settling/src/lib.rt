//! How a node decides, votes, answers and tells, and what it does of itself at the end of a step. The only error of
//! each function is a refusal of memory; what the node keeps for its clients as it was accepted stands after it too.
#![tactic(auto)]

mod answering;
mod asking;
mod choosing;
mod deciding;
mod settling;
mod telling;
mod voting;

pub use answering::inquiry_came;
pub use asking::{ask_came, become_asked, block, closer_came, refusal_came};
pub use deciding::{decide, give_notices, tell_each};
pub use settling::settle;
pub use telling::{record_learnt, tell_came, told_came};
