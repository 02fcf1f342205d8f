//! The manager of transactions of one node: what it keeps of each, and how each is decided.
#![tactic(auto)]

mod known;
mod manager;
mod members;
mod outcomes;
mod participant;

pub use known::Known;
pub use manager::{BeginFault, Decision, Manager, Standing, Which};
pub use members::{Ballot, Cast, MemberPart, SERVER_COUNT, every_server};
pub use participant::{Due, InLog, Outstanding, Participant};
