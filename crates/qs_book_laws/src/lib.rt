//! What holds of every lawful history of the reference machine.
#![tactic(auto)]

mod endings;
mod laws;
mod servers;

pub use endings::{
    gone_is_a_request_that_stood_open, nothing_is_served_after_an_outcome, servers_learn_in_order,
    volatile_servers_begin_empty,
};
pub use laws::{
    a_commit_covers_what_was_served, a_commit_is_unanimous, a_restart_keeps_what_is_on_record,
    committed_changes_are_durable, nothing_of_an_aborted_transaction, one_outcome,
    served_changes_are_kept, what_is_pending_is_to_be_learnt,
};
pub use servers::servers_go_by_the_rules;
