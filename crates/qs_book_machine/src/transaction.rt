//! The values of which the state of a transaction is made.

use qs_base::{Bytes, Member, NodeNo};
use qs_ops::{Op, Reason};

/// The state of a transaction's only outcome.
#[derive(Clone, Copy, PartialEq, Eq)]
pub enum Cell {
    Open,
    Commit,
    Abort,
}

/// Requests go from the node that issues them to the member's node.
#[derive(Clone, Copy, PartialEq, Eq, PartialOrd, Ord)]
pub struct Link {
    pub from: NodeNo,
    pub to: NodeNo,
}

/// The number of a request on a link. A node that restarts begins anew at 1, so two requests of one
/// transaction may have the same.
#[derive(Clone, Copy, PartialEq, Eq, PartialOrd, Ord)]
pub struct RequestNo {
    pub link: Link,
    pub number: u32,
}

/// A request of a transaction.
#[derive(Drop)]
pub struct Request {
    /// A client of the issuing node, or its files server.
    pub issuer: Member,
    pub member: Member,
    pub op: Op,
    /// The incarnation of the issuing node.
    pub inc: u64,
    pub served: bool,
}

/// What a node sent to a peer for a transaction.
#[derive(Clone, Copy)]
pub struct Sent {
    /// The incarnation in which it sent last.
    pub inc: u64,
    /// How many requests it sent in it.
    pub count: u32,
    /// Up to which of them it counted the peer's answer.
    pub counted: u32,
    /// Whether a request of an earlier incarnation was never counted.
    pub lost: bool,
    /// Whether files issued one of them.
    pub by_files: bool,
}

/// What is open towards a node for a transaction.
#[derive(Clone, Copy)]
pub struct Peer {
    /// How many requests of clients went to it since an answer to the client.
    pub waiting: u32,
    /// The last incarnation of that node in which a request to it was seen open.
    pub reached: u64,
}

/// A member in an incarnation of its node.
#[derive(Clone, Copy, PartialEq, Eq, PartialOrd, Ord)]
pub struct Life {
    pub member: Member,
    pub inc: u64,
}

/// What a member did for a transaction in an incarnation of its node.
#[derive(Clone, Copy)]
pub struct Part {
    /// How many requests it served.
    pub served: u64,
    /// How many of them before its last vote.
    pub voted: u64,
    /// How many of them before its last vote that was not against commit.
    pub covered: u64,
    /// Whether its last vote was read-only.
    pub read_only: bool,
    /// Whether it served or was left something since it last learnt or ended.
    pub due: bool,
    /// Whether it learnt abort.
    pub aborted: bool,
    /// How many changes are pending.
    pub pending: u64,
    /// The covers of the vote that the restart into this incarnation found; 0 for none.
    pub found: u64,
    /// The stamp of the step in which it last served.
    pub step: u64,
    /// A client alone: how many loans that it was asked to take in that step are not made.
    pub unmade: u64,
    /// A client alone: how many loans were made to it.
    pub made: u64,
    /// A client alone: how many of them it gave back.
    pub yielded: u64,
}

/// A read-only vote of a member after so many served requests: from there a count may begin anew.
#[derive(Clone, Copy, PartialEq, Eq, PartialOrd, Ord)]
pub struct Start {
    pub life: Life,
    pub served: u64,
}

/// A vote against commit.
#[derive(Drop)]
pub struct Refusal {
    pub member: Member,
    pub reason: Reason,
}

/// An audit note that files of a node issued in an incarnation, and that was served.
#[derive(Drop, PartialEq, Eq, PartialOrd, Ord)]
pub struct Noted {
    pub node: NodeNo,
    pub inc: u64,
    pub text: Bytes,
}
