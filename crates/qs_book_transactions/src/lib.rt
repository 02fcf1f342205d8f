//! What the reference machine keeps of one transaction.
#![tactic(auto)]

mod cells;
mod part;
mod requests;
mod sending;
mod transaction;

pub use cells::cell_of;
pub use part::{is_let_go, may_learn_still};
pub use transaction::Transaction;
