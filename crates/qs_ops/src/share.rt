//! What a transaction holds at a server.

use crate::Changes;
use qs_base::{Bytes, List, Tid};

/// What a transaction holds at a server of a node, since it last ended there.
#[derive(Drop)]
pub struct Share {
    /// Its pending changes, in the order in which they were served.
    pub changes: Changes,
    /// The names that it read, in that order.
    pub reads: List<Bytes>,
    /// How many of its operations count: those served with another reply than `TooMany`, and each
    /// change that a restart kept.
    pub operations: u32,
    /// Whether its last vote here is volatile.
    pub voted: bool,
}

/// The changes of a transaction that a restart finds in the log.
#[derive(Drop)]
pub struct KeptChanges {
    pub tid: Tid,
    pub changes: Changes,
}
