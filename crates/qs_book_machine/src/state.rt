//! What the machine keeps of each client, and what is on record.

use crate::causes::Causes;
use qs_base::{List, NodeNo, ServerNo, Tid};
use qs_ops::{Changes, KeptChanges};

/// A transaction at a server of a node.
#[derive(Clone, Copy, PartialEq, Eq, PartialOrd, Ord)]
pub struct Voter {
    pub tid: Tid,
    pub server: ServerNo,
}

/// A recoverable vote that can still be committed or dropped.
#[derive(Drop)]
pub struct OnRecord {
    /// The changes that it stands for; of a crossed member they are not known, and there are none.
    pub changes: Changes,
    /// For how many served requests it stands.
    pub covers: u32,
    /// How many changes the member had pending, also where it is crossed.
    pub pending: u64,
}

/// What files and audit of a restarted node begin with.
#[derive(Drop)]
pub struct Reopened {
    /// The new incarnation.
    pub inc: u64,
    /// The changes of files in the Commits that were found, in their order.
    pub files: Changes,
    /// The votes of files that are pending again.
    pub files_kept: List<KeptChanges>,
    /// And the same of audit.
    pub audit: Changes,
    pub audit_kept: List<KeptChanges>,
}

/// What a client may be told, and up to which line it was answered.
#[derive(Drop)]
pub struct Owner {
    /// The line of its last answer; 0 before the first.
    pub line: u32,
    /// Whether a transaction of its was committed.
    pub committed: bool,
    /// Why its transactions were aborted.
    pub causes: Causes,
    /// Its requests since its last answer, by transaction and member's node.
    pub waiting: List<Asking>,
}

/// A transaction of which a request went to a node.
#[derive(Clone, Copy)]
pub struct Asking {
    pub tid: Tid,
    pub node: NodeNo,
}
