//! What the machine starts from: the state that the log of a node holds as the run begins.

use qs_base::{Bytes, List, ServerNo, Tid};
use qs_ops::{Changes, File};

/// What a node's log holds as it opens.
#[derive(Debug, Drop)]
pub struct Opened {
    /// The incarnation in which the node runs.
    pub inc: u64,
    /// The format of its disk, 1 or 2.
    pub format: u32,
    /// The committed files, in byte order of their names.
    pub files: List<File>,
    /// The committed notes of audit, in order.
    pub audit: List<Bytes>,
    /// The committed texts of the further server, in order.
    pub extra: List<Bytes>,
    /// The Prepares that are not ended and have no Commit, in log order.
    pub pending: List<Pending>,
    /// The transactions of the Commits of the log, in log order.
    pub committed: List<Tid>,
}

/// A recoverable vote that a log holds: the changes that can still be committed or dropped.
#[derive(Debug, Drop)]
pub struct Pending {
    pub tid: Tid,
    pub server: ServerNo,
    /// For how many served requests it stands.
    pub covers: u32,
    pub changes: Changes,
}
