//! Transactions that several tests take.
use qs_base::{NodeNo, Tid};

/// The transaction of this number of node 0.
pub(crate) const fn tid(seq: u32) -> Tid {
    Tid {
        home: NodeNo(0),
        inc: 1,
        seq,
    }
}
