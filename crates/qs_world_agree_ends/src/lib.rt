//! What the agreement of one transaction has for the claim that nothing in it waits for ever.
#![tactic(auto)]

pub mod laws;
pub mod runs;
