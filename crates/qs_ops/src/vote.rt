//! Votes of two-phase members, and what members are told.

ghost use Rattle.std.specs.Prelude.{◌≡◌};
ghost use Rattle.qs_ops.specs.Alike.{same_reason};

use qs_base::{Bytes, Copied, NoMemory};

/// Why a member votes abort.
#[derive(Debug, Drop, PartialEq, Eq, PartialOrd, Ord)]
pub enum Reason {
    /// All files together would have `bytes`, above the quota `limit`.
    Quota { bytes: u64, limit: u64 },
    /// The Prepare record needs `need` bytes, above the free room `room`.
    LogRoom { need: u64, room: u64 },
    /// The name is bound already.
    Taken { name: Bytes },
    /// A reason of the further server's own.
    Code { code: u32 },
}

/// A member's vote.
#[derive(Debug, Drop, PartialEq, Eq)]
pub enum Vote {
    Abort { reason: Reason },
    /// It has nothing pending, and learns no outcome.
    ReadOnly,
    /// It can do both, until its node stops.
    Volatile,
    /// It can do both, whatever happens.
    Recoverable,
}

/// What a member is told.
#[derive(Clone, Copy)]
pub enum Notice {
    Commit,
    Abort,
    /// The transaction is about to end (timers alone).
    Ending,
}

impl Reason {
    /// Whether it is that reason.
    pub fn is(&self, other: &Reason) -> bool
        ensures { result ≡ same_reason self.now other.now }
    {
        match (self, other) {
            (Reason::Quota { bytes, limit }, Reason::Quota { bytes: b, limit: l }) => {
                *bytes == *b && *limit == *l
            }
            (Reason::LogRoom { need, room }, Reason::LogRoom { need: n, room: r }) => {
                *need == *n && *room == *r
            }
            (Reason::Taken { name }, Reason::Taken { name: n }) => name.as_slice() == n.as_slice(),
            (Reason::Code { code }, Reason::Code { code: c }) => *code == *c,
            _ => false,
        }
    }
}

impl Copied for Reason {
    fn copy(&self) -> Result<Self, NoMemory> {
        Ok(match self {
            Reason::Quota { bytes, limit } => Reason::Quota {
                bytes: *bytes,
                limit: *limit,
            },
            Reason::LogRoom { need, room } => Reason::LogRoom {
                need: *need,
                room: *room,
            },
            Reason::Taken { name } => Reason::Taken { name: name.copy()? },
            Reason::Code { code } => Reason::Code { code: *code },
        })
    }
}

impl Copied for Vote {
    fn copy(&self) -> Result<Self, NoMemory> {
        Ok(match self {
            Vote::Abort { reason } => Vote::Abort {
                reason: reason.copy()?,
            },
            Vote::ReadOnly => Vote::ReadOnly,
            Vote::Volatile => Vote::Volatile,
            Vote::Recoverable => Vote::Recoverable,
        })
    }
}
