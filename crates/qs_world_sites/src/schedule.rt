//! How the rounds of a run follow one another.

/// How the rounds of a run follow one another.
#[derive(Clone, Copy)]
pub enum Schedule {
    /// All in one thread, each round in an order that is drawn from the seed.
    Serial { seed: u64 },
    /// A burst before each round, in which the sites take their turns side by side, in threads; the rounds in the order of the places.
    Threads,
}
