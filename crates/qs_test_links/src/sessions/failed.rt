//! Why a run is not driven to its end.

use qs_base::NoMemory;
use std::alloc::{AllocError, AllocFailed};
use thiserror::Error;

#[derive(Clone, Copy, Debug, Error)]
pub(crate) enum Failed {
    #[error("there is no memory")]
    NoMemory,
    #[error("the drawn faults of a link are no plan")]
    NoPlan,
    #[error("a session put a packet that has no spelling")]
    NoSpelling,
    #[error("a session gave out its last number")]
    Last,
}

impl From<NoMemory> for Failed {
    fn from(_error: NoMemory) -> Failed {
        Failed::NoMemory
    }
}

impl From<AllocError> for Failed {
    fn from(_error: AllocError) -> Failed {
        Failed::NoMemory
    }
}

impl<T: Drop> From<AllocFailed<T>> for Failed {
    fn from(_failed: AllocFailed<T>) -> Failed {
        Failed::NoMemory
    }
}
