//! How a round ended, and how the rounds of a run did.

/// How a round ended.
#[derive(Clone, Copy)]
pub struct RoundEnd {
    /// Each node was up as it began, none made an entry but those of ticks, none sent a packet, and no client made a step.
    pub quiet: bool,
}

/// How the rounds of a run ended.
#[derive(Clone, Copy)]
pub struct Ending {
    /// How many there were.
    pub rounds: u64,
    /// The last one was quiet, each client stands at the end of its script, and no transaction is unended at a node.
    pub settled: bool,
}
