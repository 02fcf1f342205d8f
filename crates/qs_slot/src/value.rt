//! What a slot holds.

/// The format of a disk, its node's incarnation, and the generation of its log.
#[derive(Clone, Copy, PartialEq, Eq)]
pub struct SlotValue {
    /// 1 for the format in which the records of a batch stand one behind the other.
    pub format: u32,
    /// How often the node was started, below 2^62.
    pub inc: u64,
    /// How often the log changed its area.
    pub generation: u32,
}
