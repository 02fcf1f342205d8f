//! The values of which the course of a run is made.

use qs_base::{Bytes, Member, NodeNo, Tid};

/// What the first of a client's commands that are not answered has made.
#[derive(Clone, Copy)]
pub enum CommandMade {
    Nothing,
    Begun,
    Asked,
    Aborted,
    GaveBack,
    Issued { sought: Sought },
}

/// A request for whose reply a client waits.
#[derive(Clone, Copy, PartialEq, Eq, PartialOrd, Ord)]
pub struct Sought {
    pub tid: Tid,
    pub member: Member,
    /// The node that issued it.
    pub from: NodeNo,
    pub number: u32,
}

/// A loan to a client.
#[derive(Clone, Copy)]
pub struct Loan {
    /// The incarnation of the client's node in which it was made.
    pub inc: u64,
    pub given_back: bool,
}

/// What the entries are about that fault lines may name.
#[derive(Clone, Copy, PartialEq, Eq, PartialOrd, Ord)]
pub enum Deed {
    Serve,
    Vote,
    Decide,
    Learn,
}

/// A fault line that stops a node before or after its first entry of a kind for a label's transaction.
#[derive(Drop, PartialEq, Eq, PartialOrd, Ord)]
pub struct Mark {
    pub node: NodeNo,
    pub after: bool,
    pub deed: Deed,
    pub label: Bytes,
}

/// What the script and the run so far say of a node.
#[derive(Clone, Copy)]
pub struct NodeCourse {
    /// So many bytes its files may have.
    pub quota: u64,
    /// How many fault lines may still have been the ground of a crash, of those of which the
    /// journal does not tell of which: `crash`, `stop`, and `before` while the entry does not stand.
    pub lines: u64,
    /// How many crashes by plan have such a line, of which it is not settled which.
    pub owing: u64,
    /// The stamp of its last entry.
    pub stamp: u64,
    /// The step of that stamp made the entry after which a line stops the node.
    pub is_after: bool,
    /// Its disk's count of faults at the last crash that the disk made.
    pub faults: u64,
}
