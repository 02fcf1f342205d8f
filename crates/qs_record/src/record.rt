//! What a log says of a transaction.

use qs_base::{Copied, List, NoMemory, NodeNo, ServerNo, Tid};
use qs_ops::Changes;

/// A record of a log. It has a spelling where its incarnation is below 2^62, its nodes are below 16
/// and rise, its server is 0 to 6 or 32 to 95, and its changes are changes with names and texts
/// within their limits.
#[derive(Drop, PartialEq, Eq)]
pub enum Record {
    /// A server's vote: it can commit and abort. `covers` counts the requests that it covers, and
    /// `changes` are all that are pending there for the transaction, in order.
    Prepare {
        tid: Tid,
        server: ServerNo,
        covers: u32,
        changes: Changes,
    },
    /// At the home the decision, with the remote nodes that are to be told; elsewhere that the members
    /// have learnt commit, with no nodes.
    Commit {
        tid: Tid,
        told: List<NodeNo>,
    },
    /// The transaction ended with abort.
    Aborted {
        tid: Tid,
    },
    /// Every node that was to be told of the commit has been.
    End {
        tid: Tid,
    },
}

impl Copied for Record {
    fn copy(&self) -> Result<Self, NoMemory> {
        Ok(match self {
            Record::Prepare {
                tid,
                server,
                covers,
                changes,
            } => Record::Prepare {
                tid: *tid,
                server: *server,
                covers: *covers,
                changes: changes.copy()?,
            },
            Record::Commit { tid, told } => Record::Commit {
                tid: *tid,
                told: told.copy()?,
            },
            Record::Aborted { tid } => Record::Aborted { tid: *tid },
            Record::End { tid } => Record::End { tid: *tid },
        })
    }
}
