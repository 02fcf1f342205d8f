//! The reference machine as definitions: its state, clauses and lawful histories, and the plain data that they speak of.
#![tactic(auto)]

mod causes;
mod opened;
mod state;
mod transaction;

pub use causes::Causes;
pub use opened::{Opened, Pending};
pub use state::{Asking, OnRecord, Owner, Reopened, Voter};
pub use transaction::{
    Cell, Life, Link, Noted, Part, Peer, Refusal, Request, RequestNo, Sent, Start,
};
