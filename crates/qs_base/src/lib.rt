//! Identifiers, lists and byte strings that every crate of the project shares.
#![tactic(auto)]

mod bytes;
mod identifiers;
mod list;
mod memory;

pub use bytes::Bytes;
pub use identifiers::{Class, ClientNo, Member, NodeNo, Outcome, ServerNo, Stamp, Tid};
pub use list::{Copied, List, copy_list};
pub use memory::{GrowFault, NoMemory};
