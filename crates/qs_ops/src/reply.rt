//! What a server replies to an operation.

ghost use Rattle.std.specs.Prelude.{◌≡◌};
ghost use Rattle.qs_ops.specs.Alike.{same_reply};

use qs_base::{Bytes, Copied, List, NoMemory, Tid};

/// A reply.
#[derive(Debug, Drop, PartialEq, Eq)]
pub enum Reply {
    /// The change is pending.
    Done,
    /// The text that was asked for.
    Value { text: Bytes },
    /// The ticks that are left.
    Left { ticks: u32 },
    /// The names of all files, in byte order.
    Names { list: List<Bytes> },
    /// All notes in order.
    Notes { list: List<Bytes> },
    /// The transaction that holds the name: the least of those with a pending change, else the
    /// least of those that read it.
    Busy { holder: Tid },
    /// There is nothing of that name.
    Absent,
    /// The transaction had 1,024 operations served here.
    TooMany,
    /// The file would pass 65,536 bytes.
    TooLong,
}

impl Reply {
    /// Whether it is that reply.
    pub fn is(&self, other: &Reply) -> bool
        ensures { result ≡ same_reply self.now other.now }
    {
        match (self, other) {
            (Reply::Done, Reply::Done) => true,
            (Reply::Value { text }, Reply::Value { text: t }) => text.as_slice() == t.as_slice(),
            (Reply::Left { ticks }, Reply::Left { ticks: t }) => *ticks == *t,
            (Reply::Names { list }, Reply::Names { list: l }) => *list == *l,
            (Reply::Notes { list }, Reply::Notes { list: l }) => *list == *l,
            (Reply::Busy { holder }, Reply::Busy { holder: h }) => *holder == *h,
            (Reply::Absent, Reply::Absent) => true,
            (Reply::TooMany, Reply::TooMany) => true,
            (Reply::TooLong, Reply::TooLong) => true,
            _ => false,
        }
    }
}

impl Copied for Reply {
    fn copy(&self) -> Result<Self, NoMemory> {
        Ok(match self {
            Reply::Done => Reply::Done,
            Reply::Value { text } => Reply::Value { text: text.copy()? },
            Reply::Left { ticks } => Reply::Left { ticks: *ticks },
            Reply::Names { list } => Reply::Names { list: list.copy()? },
            Reply::Notes { list } => Reply::Notes { list: list.copy()? },
            Reply::Busy { holder } => Reply::Busy { holder: *holder },
            Reply::Absent => Reply::Absent,
            Reply::TooMany => Reply::TooMany,
            Reply::TooLong => Reply::TooLong,
        })
    }
}
