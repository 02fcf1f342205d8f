//! What a cell has of each other node of the run: a session, and its ends of the two links between them.
#![tactic(auto)]

mod heard;
mod links;
mod peers;
mod sessions;

pub use heard::Heard;
pub use links::Links;
pub use sessions::Sessions;
