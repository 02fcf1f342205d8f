//! Whom a place in the order of a round means.

/// Whom a place in the order of a round means.
#[derive(Clone, Copy)]
pub struct Turn {
    /// The site, by the number of its node.
    pub site: usize,
    /// The place there: 0 is the node, and the places behind it are its clients, by number.
    pub place: usize,
}
