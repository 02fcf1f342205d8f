//! The clauses of the lawful step: for each kind of entry the first one that it breaks, by number.

mod deciding;
mod ending;
mod issuing;
mod serving;
mod voting;

pub use deciding::{broken_ask, broken_counted, broken_decide};
pub use ending::{
    borrower_at, broken_answer, broken_crash, broken_ending, broken_learn, broken_loan,
    broken_yield,
};
pub use issuing::{Issue, broken_begin, broken_issue, files_note};
pub use serving::{Serve, broken_serve};
pub use voting::{MemberVote, broken_vote, has_vote};

pub const STAMP_ORDER: u16 = 1;

pub const NODE_IS_UP: u16 = 2;

pub const NEXT_IDENTIFIER: u16 = 10;

pub const FRESH_LABEL: u16 = 11;

pub const ISSUE_NUMBERING: u16 = 20;

pub const CLIENT_MAY_ISSUE: u16 = 21;

pub const AUDIT_NOTE_DUE: u16 = 22;

pub const SERVE_OF_A_STANDING_ISSUE: u16 = 30;

pub const REPLY_BY_THE_RULES: u16 = 31;

pub const NO_SERVE_AFTER_ABORT: u16 = 32;

pub const VOTE_IS_DUE: u16 = 40;

pub const VOTE_COVERS: u16 = 41;

pub const VOTE_BY_THE_RULES: u16 = 42;

pub const ASK_ONCE: u16 = 50;

pub const COUNTED_PEER: u16 = 60;

pub const DECIDE_ONCE_AT_HOME: u16 = 70;

pub const UNANIMOUS_COMMIT: u16 = 71;

pub const ABORT_HAS_ITS_CAUSE: u16 = 72;

pub const ANSWERS_IN_ORDER: u16 = 80;

pub const ANSWER_IS_THE_CELL: u16 = 81;

pub const LOAN_FOLLOWS_ITS_LEND: u16 = 85;

pub const YIELD_OF_A_STANDING_LOAN: u16 = 88;

pub const ENDING_IS_DUE: u16 = 90;

pub const LEARNS_THE_CELL: u16 = 95;

pub const READ_ONLY_LEARNS_NOTHING: u16 = 96;

pub const LEARNING_ORDER: u16 = 97;

pub const DISK_COUNT_ROSE: u16 = 100;

pub const INCARNATION_RISES: u16 = 110;

pub const FOUND_VOTES_ARE_VOTES: u16 = 111;

pub const NO_VOTE_IS_LOST: u16 = 112;

pub const FOUND_COMMITS_ARE_COMMITS: u16 = 113;
