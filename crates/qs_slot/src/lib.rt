//! The two header slots of a disk: a new value stands beside the old one until it is whole.
#![tactic(auto)]

mod body;
mod fault;
mod found;
mod opening;
mod place;
mod slots;
mod value;

pub use fault::SlotFault;
pub use opening::open_slots;
pub use slots::Slots;
pub use value::SlotValue;
