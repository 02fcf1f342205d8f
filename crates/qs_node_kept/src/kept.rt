//! What a node keeps for its clients through a restart.

use qs_base::{Bytes, ClientNo, List, Outcome, Tid};
use qs_ops::Cause;

/// A label that the node has met.
#[derive(Drop)]
pub struct KeptLabel {
    pub label: Bytes,
    /// `None` where its begin was refused.
    pub tid: Option<Tid>,
    /// The client of this node that owns it; `None` where it was begun at another node.
    pub owner: Option<ClientNo>,
}

/// A loan that was made to a client of this node.
#[derive(Clone, Copy)]
pub struct Lent {
    pub tid: Tid,
    pub client: ClientNo,
    /// The incarnation in which it was made.
    pub inc: u64,
    /// Whether a take of the client was answered with it.
    pub taken: bool,
    /// Whether it was given back.
    pub yielded: bool,
}

/// How a transaction ended that was begun here.
#[derive(Drop)]
pub struct Decided {
    pub tid: Tid,
    pub outcome: Outcome,
    /// `None` exactly on commit.
    pub cause: Option<Cause>,
}

/// All of it, each list in the order in which it was learnt.
#[derive(Drop)]
pub struct Kept {
    pub labels: List<KeptLabel>,
    pub loans: List<Lent>,
    pub outcomes: List<Decided>,
}
