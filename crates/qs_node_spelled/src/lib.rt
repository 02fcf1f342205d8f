//! Which records and messages of a node have a spelling in bytes.
#![tactic(auto)]

mod messages;
mod parts;
mod records;

pub use messages::{is_message, is_sendable};
pub use records::is_record;
