//! The forms of the words after the program's name.

/// What the words ask for.
#[derive(Clone, Copy, Debug)]
pub enum Form {
    /// A script is run on nodes 0 to `nodes` - 1; in one thread, in an order drawn from the seed,
    /// where there is one.
    Run {
        nodes: u8,
        serial: Option<u64>,
        journal: bool,
    },
    /// A history is read and judged.
    Check,
    /// The load script of the seed is run on the nodes that it is for.
    Load {
        seed: u64,
    },
}

/// Why words are refused.
#[derive(Clone, Copy, Debug)]
pub enum WordsFault {
    /// They are of no form.
    Usage,
    /// Memory was asked for and refused.
    NoMemory,
}
