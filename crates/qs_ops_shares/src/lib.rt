//! What the transactions hold at a server: pending changes, reads, counts and votes, by identifier.
#![tactic(auto)]

mod lengths;
mod shares;

pub use shares::Shares;
