//! Numbers of nodes, clients and servers, and the identifiers made of them.

/// A node of the run, from 0.
#[derive(Clone, Copy, Debug, PartialEq, Eq, PartialOrd, Ord)]
pub struct NodeNo(pub u8);

/// A client of the run, from 0.
#[derive(Clone, Copy, Debug, PartialEq, Eq, PartialOrd, Ord)]
pub struct ClientNo(pub u8);

/// A server of a node: 0 files, 1 audit, 2 names, 3 timers, 4 windows, 5 scratch, 6 the further
/// server, 7 the manager (in log scans alone), 32 + k client k as a borrower.
#[derive(Clone, Copy, Debug, PartialEq, Eq, PartialOrd, Ord)]
pub struct ServerNo(pub u8);

/// A transaction: its home node, the home's incarnation in which it began, and its number there,
/// from 1. Identifiers are in the order of these three.
#[derive(Clone, Copy, Debug, PartialEq, Eq, PartialOrd, Ord)]
pub struct Tid {
    pub home: NodeNo,
    pub inc: u64,
    pub seq: u32,
}

/// A member of a transaction: a server at a node, or a borrower at its node.
#[derive(Clone, Copy, Debug, PartialEq, Eq, PartialOrd, Ord)]
pub struct Member {
    pub node: NodeNo,
    pub server: ServerNo,
}

/// A logical time (Lamport 1978): one number for all entries of a step, below 2^62.
pub type Stamp = u64;

/// How a transaction ended.
#[derive(Clone, Copy, Debug, PartialEq, Eq)]
pub enum Outcome {
    Commit,
    Abort,
}

/// How a server takes part in a commit.
#[derive(Clone, Copy, PartialEq, Eq)]
pub enum Class {
    /// Two phases; its prepared changes outlive a crash.
    Recoverable,
    /// Two phases; a crash forgets.
    Volatile,
    /// One phase, told as its node begins to vote.
    Immediate,
    /// One phase, told once the two-phase members know.
    Standard,
    /// One phase, told last.
    Delayed,
    /// A borrower, which has to give its loan back before the commit.
    Activity,
}
