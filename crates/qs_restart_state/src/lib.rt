//! The state of a node as records, which takes the place of its log at a checkpoint.
#![tactic(auto)]

mod laws;

pub use laws::{
    a_state_by_records, logs_may_be_taken, restarts_find_the_same, same_transactions_are_open,
    states_are_coherent, states_read_alike, states_say, what_reads_alike_goes_on,
};
