//! What one node tells another about a transaction.

use qs_base::{Bytes, Copied, List, Member, NoMemory, NodeNo, Outcome, ServerNo, Tid};
use qs_ops::{Cause, Op, Reply};

/// A message about a transaction, or a greeting.
#[derive(Debug, Drop)]
pub enum Message {
    /// A greeting, or an acknowledgement that goes alone. It bears no number.
    Hello,
    /// The operation is to be served to the member, at the node that the packet goes to. `number`
    /// counts, from 1, the requests of the transaction from this node to that node. `issuer` is a
    /// server of this node, or the borrower number of a client.
    Request {
        tid: Tid,
        label: Bytes,
        member: Member,
        number: u32,
        issuer: ServerNo,
        op: Op,
    },
    /// The reply to the request with that number.
    Answered {
        tid: Tid,
        member: Member,
        number: u32,
        reply: Reply,
    },
    /// The node is asked to vote.
    AskVote {
        tid: Tid,
    },
    /// The requests up to that number are covered by votes of the node.
    Covered {
        tid: Tid,
        up_to: u32,
    },
    /// The node votes for commit, with the requests up to that number covered, and names the nodes
    /// that are to be told of the outcome.
    VotedYes {
        tid: Tid,
        up_to: u32,
        told: List<NodeNo>,
    },
    /// The node votes for abort.
    VotedAbort {
        tid: Tid,
        cause: Cause,
    },
    /// The outcome.
    Tell {
        tid: Tid,
        outcome: Outcome,
    },
    /// The node knows the outcome, and names further nodes that are to be told.
    Told {
        tid: Tid,
        further: List<NodeNo>,
    },
    /// The outcome is asked for.
    Inquire {
        tid: Tid,
    },
}

impl Copied for Message {
    fn copy(&self) -> Result<Self, NoMemory> {
        Ok(match self {
            Message::Hello => Message::Hello,
            Message::Request {
                tid,
                label,
                member,
                number,
                issuer,
                op,
            } => Message::Request {
                tid: *tid,
                label: label.copy()?,
                member: *member,
                number: *number,
                issuer: *issuer,
                op: op.copy()?,
            },
            Message::Answered {
                tid,
                member,
                number,
                reply,
            } => Message::Answered {
                tid: *tid,
                member: *member,
                number: *number,
                reply: reply.copy()?,
            },
            Message::AskVote { tid } => Message::AskVote { tid: *tid },
            Message::Covered { tid, up_to } => Message::Covered {
                tid: *tid,
                up_to: *up_to,
            },
            Message::VotedYes { tid, up_to, told } => Message::VotedYes {
                tid: *tid,
                up_to: *up_to,
                told: told.copy()?,
            },
            Message::VotedAbort { tid, cause } => Message::VotedAbort {
                tid: *tid,
                cause: cause.copy()?,
            },
            Message::Tell { tid, outcome } => Message::Tell {
                tid: *tid,
                outcome: *outcome,
            },
            Message::Told { tid, further } => Message::Told {
                tid: *tid,
                further: further.copy()?,
            },
            Message::Inquire { tid } => Message::Inquire { tid: *tid },
        })
    }
}
