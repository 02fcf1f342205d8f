//! What a node's sessions make of a packet.

/// What a node's sessions make of a packet: the first that holds.
#[derive(Clone, Copy, Drop)]
pub enum Heard {
    /// It does not come from another node of the run to this one, and is dropped.
    Strange,
    /// It brings the message in turn.
    Message,
    /// It comes from a later incarnation of a node that was known in incarnation `old`.
    Restarted { old: u64 },
    /// It changes its session at most.
    Aside,
}
