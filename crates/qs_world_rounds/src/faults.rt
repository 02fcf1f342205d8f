//! Why a round is cut short.

use qs_base::{NoMemory, NodeNo};

/// Why a round is cut short.
#[derive(Clone, Copy)]
pub enum RoundFault {
    /// The disk of that node failed as the node was started again.
    DiskFault { node: NodeNo },
    /// The log of a node opened as damaged as the node was started again.
    Damaged,
    /// Memory was refused, be it within a step of a node.
    NoMemory,
}

impl From<NoMemory> for RoundFault {
    ghost use Rattle.std.specs.Prelude.{◌≡◌};
    ghost use Rattle.qs_world_rounds.specs.declared.faults.RoundFault.TheVariants.{NoMemory};

    ghost from_gives = { λ _ e. e ≡ NoMemory };

    fn from(_error: NoMemory) -> RoundFault {
        RoundFault::NoMemory
    }
}
