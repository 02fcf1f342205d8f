//! What is kept of each step that a node made.

use qs_base::{List, NodeNo, Stamp};
use qs_book_journal::{CrashCause, ScriptLine};
use qs_packet::Packet;

/// The event of a step.
#[derive(Drop)]
pub enum Did {
    /// A packet was taken.
    Packet { packet: Packet },
    /// A client's command was taken.
    Command { line: ScriptLine },
    /// The requests that waited were to be served.
    ServeAll,
    /// Time passed.
    Tick,
    /// The node started in that incarnation.
    Restart { inc: u64 },
    /// None: a crash stands behind a step, or memory was refused before the event was made.
    Nothing,
}

/// A step of a node.
#[derive(Drop)]
pub struct Step {
    pub stamp: Stamp,
    pub node: NodeNo,
    /// How many acts the node made, with this one.
    pub acts: u64,
    /// How many rounds it was visited or restarted in, with this one.
    pub rounds: u64,
    pub did: Did,
    /// What was put to the links, in order.
    pub put: List<Packet>,
    /// Why the node stopped in it, if it did.
    pub crash: Option<CrashCause>,
}
