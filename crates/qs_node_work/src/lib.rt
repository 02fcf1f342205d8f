//! What the rules of a node's step are made of: entries, messages, answers, records, and what the step did so far; and
//! requests: how they are issued, come from other nodes, wait at a server, and are served and replied to.
#![tactic(auto)]

mod answering;
mod doings;
mod engaging;
mod issuing;
mod lengths;
mod logging;
mod numbers;
mod replies;
mod sending;
mod serving;
mod waiting;

pub use answering::{answer, enter, member_here};
pub use doings::{doings_of, note_asked, note_prepared, note_served, note_voted, note_yielded};
pub use engaging::{put_label, request_came};
pub use issuing::{issue, issue_as};
pub use lengths::record_length;
pub use logging::{log, log_if};
pub use numbers::next_number;
pub use replies::reply_came;
pub use sending::{send, send_each};
pub use serving::serve_all;
