//! Every run of the world of nodes is lawful: what the agreement machine gives each step, what all places hold of
//! a transaction, and the induction over the moves of a run.
#![tactic(auto)]

mod coherent_again;
mod comes;
pub mod counted;
pub mod found;
mod joined_agrees;
mod joined_runs;
pub mod on_record;
pub mod placed;
pub mod replies;
mod tried_apart;
mod tried_owing;
mod votes;

pub use coherent_again::{
    homes_log_commits, logs_stand_for_states, runs_leave_openings, votes_have_own_changes,
};
pub use comes::{what_begins_is_bare, what_comes_finds};
pub use joined_agrees::{stages_are_sound, steps_agree};
pub use joined_runs::runs_are_lawful;
pub use tried_apart::issuers_are_engaged;
pub use tried_owing::{a_stale_record_is_forgotten, owed_stands_open};
pub use votes::votes_are_of_what_was_pending;
