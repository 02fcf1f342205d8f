//! What a node is made with.

use qs_base::NodeNo;

/// What stays the same while a node runs.
#[derive(Clone, Copy)]
pub struct Setting {
    /// Its own number.
    pub node: NodeNo,
    /// Its incarnation, from 1.
    pub inc: u64,
    /// How many nodes the run has, at most 16.
    pub nodes: u8,
    /// The bytes that its files may have.
    pub quota: u64,
    /// The node at which its files note their changes; `None` where they note none.
    pub audit: Option<NodeNo>,
    /// The bytes before each record of a batch, at most 8.
    pub extra: u64,
    /// The bytes that the log keeps free for each transaction that is not ended, at most 144.
    pub keep: u64,
    /// The ticks after which the home aborts what it has not decided; `None` where it never does.
    pub age: Option<u64>,
}
