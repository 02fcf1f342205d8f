//! What a log says.

use qs_base::{List, ServerNo, Tid};
use qs_ops::Changes;
use qs_record::Record;

/// A server's vote in a log that is not ended, without its changes.
#[derive(Clone, Copy, PartialEq, Eq)]
pub struct OpenVote {
    pub tid: Tid,
    pub server: ServerNo,
    /// How many requests it covers.
    pub covers: u32,
}

/// What a log says of the servers and transactions of its node. Identifiers of number 0 name no
/// transaction: their changes are among the committed ones, and no other list has them.
#[derive(Drop)]
pub struct Recovered {
    /// The committed changes of files, in log order.
    pub files: Changes,
    /// The committed changes of audit, in log order.
    pub audit: Changes,
    /// The committed changes of the further server, in log order.
    pub extra: Changes,
    /// The last vote of each transaction and server that is not ended, in log order.
    pub votes: List<OpenVote>,
    /// The Prepares of these votes whose transaction has no Commit behind them.
    pub in_doubt: List<Record>,
    /// The Commits with a list and no End, in log order.
    pub untold: List<Record>,
    /// The transactions of all Commits, in log order.
    pub committed: List<Tid>,
}
