//! What a node takes up from its log as it restarts.
#![tactic(auto)]

mod laws;
mod places;
mod recovered;
mod recovering;

pub use laws::{a_state_says_the_contents, commits_apply_the_last_vote, what_stands_open_is_kept};
pub use recovered::{OpenVote, Recovered};
pub use recovering::recover;
