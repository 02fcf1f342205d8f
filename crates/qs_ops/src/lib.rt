//! Operations of the servers, what a server holds and how it replies and votes, and what clients are answered.
#![tactic(auto)]

mod answer;
mod class;
mod file;
mod laws;
mod no_server;
mod operation;
mod reply;
mod server;
pub mod servers;
mod share;
mod spelling;
mod vote;

pub use answer::{Answer, Cause, answer_of};
pub use class::{class_of, is_two_phase, learns_outcome};
pub use file::File;
pub use laws::contents_are_given_whole;
pub use no_server::NoServer;
pub use operation::{Changes, Op, server_of};
pub use reply::Reply;
pub use server::{Server, ServerKind};
pub use share::{KeptChanges, Share};
pub use spelling::{is_change, op_length, prepare_length};
pub use vote::{Notice, Reason, Vote};
