//! What a node keeps for its clients through a restart. It can go back to what was last accepted, with no memory.
#![tactic(auto)]

mod grown;
mod keeping;
mod kept;
mod labels;
mod ledger;
mod loans;
mod outcomes;

pub use grown::Grown;
pub use keeping::Keeping;
pub use kept::{Decided, Kept, KeptLabel, Lent};
pub use ledger::Ledger;
