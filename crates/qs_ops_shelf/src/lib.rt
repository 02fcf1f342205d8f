//! Texts under names, and the texts that transactions are about to put there.
#![tactic(auto)]

mod claims;
mod shelf;
mod slot;
mod slots;

pub use shelf::Shelf;
