//! What a client is answered, and why a transaction is aborted.

ghost use Rattle.std.specs.Prelude.{◌≡◌};
ghost use Rattle.qs_ops.specs.Alike.{same_cause};
ghost use Rattle.qs_ops.specs.Operations.{answer_of};

use crate::reply::Reply;
use crate::vote::Reason;
use qs_base::{Bytes, Copied, List, Member, NoMemory, NodeNo, Tid};

/// Why a transaction was aborted.
#[derive(Debug, Drop, PartialEq, Eq, PartialOrd, Ord)]
pub enum Cause {
    /// Its owner asked for it.
    Asked,
    /// That member voted abort.
    Voted { member: Member, reason: Reason },
    /// That node stopped in incarnation `inc` while a request to it was open.
    Gone { node: NodeNo, inc: u64 },
    /// The home restarted after incarnation `inc`, and its log has no Commit.
    Home { inc: u64 },
    /// The Commit record needs `need` bytes, above the free room `room`.
    Room { need: u64, room: u64 },
    /// The transaction came to the age limit of its home, `age` ticks.
    Old { age: u64 },
}

/// The answer to a command.
#[derive(Debug, Drop, PartialEq, Eq)]
pub enum Answer {
    Done,
    Value { text: Bytes },
    Left { ticks: u32 },
    Names { list: List<Bytes> },
    Notes { list: List<Bytes> },
    Busy { holder: Tid },
    Absent,
    TooMany,
    TooLong,
    Committed,
    Aborted { cause: Cause },
    /// The transaction has ended, or the borrower's part in it.
    Ended,
    /// The borrower gave its last loan back.
    NotYours,
    /// The transaction's `begin` was refused.
    NotBegun,
    /// The log has no room for another transaction.
    LogFull { need: u64, room: u64 },
}

impl Cause {
    /// Whether it is that cause.
    pub fn is(&self, other: &Cause) -> bool
        ensures { result ≡ same_cause self.now other.now }
    {
        match (self, other) {
            (Cause::Asked, Cause::Asked) => true,
            (
                Cause::Voted { member, reason },
                Cause::Voted {
                    member: m,
                    reason: r,
                },
            ) => { *member == *m && reason.is(r) }
            (Cause::Gone { node, inc }, Cause::Gone { node: n, inc: i }) => {
                *node == *n && *inc == *i
            }
            (Cause::Home { inc }, Cause::Home { inc: i }) => *inc == *i,
            (Cause::Room { need, room }, Cause::Room { need: n, room: r }) => {
                *need == *n && *room == *r
            }
            (Cause::Old { age }, Cause::Old { age: a }) => *age == *a,
            _ => false,
        }
    }
}

impl Copied for Cause {
    fn copy(&self) -> Result<Self, NoMemory> {
        Ok(match self {
            Cause::Asked => Cause::Asked,
            Cause::Voted { member, reason } => Cause::Voted {
                member: *member,
                reason: reason.copy()?,
            },
            Cause::Gone { node, inc } => Cause::Gone {
                node: *node,
                inc: *inc,
            },
            Cause::Home { inc } => Cause::Home { inc: *inc },
            Cause::Room { need, room } => Cause::Room {
                need: *need,
                room: *room,
            },
            Cause::Old { age } => Cause::Old { age: *age },
        })
    }
}

impl Copied for Answer {
    fn copy(&self) -> Result<Self, NoMemory> {
        Ok(match self {
            Answer::Done => Answer::Done,
            Answer::Value { text } => Answer::Value { text: text.copy()? },
            Answer::Left { ticks } => Answer::Left { ticks: *ticks },
            Answer::Names { list } => Answer::Names { list: list.copy()? },
            Answer::Notes { list } => Answer::Notes { list: list.copy()? },
            Answer::Busy { holder } => Answer::Busy { holder: *holder },
            Answer::Absent => Answer::Absent,
            Answer::TooMany => Answer::TooMany,
            Answer::TooLong => Answer::TooLong,
            Answer::Committed => Answer::Committed,
            Answer::Aborted { cause } => Answer::Aborted {
                cause: cause.copy()?,
            },
            Answer::Ended => Answer::Ended,
            Answer::NotYours => Answer::NotYours,
            Answer::NotBegun => Answer::NotBegun,
            Answer::LogFull { need, room } => Answer::LogFull {
                need: *need,
                room: *room,
            },
        })
    }
}

/// The answer to a request that was served with this reply.
pub fn answer_of(reply: Reply) -> Answer
    ensures { result ≡ answer_of reply }
{
    match reply {
        Reply::Done => Answer::Done,
        Reply::Value { text } => Answer::Value { text },
        Reply::Left { ticks } => Answer::Left { ticks },
        Reply::Names { list } => Answer::Names { list },
        Reply::Notes { list } => Answer::Notes { list },
        Reply::Busy { holder } => Answer::Busy { holder },
        Reply::Absent => Answer::Absent,
        Reply::TooMany => Answer::TooMany,
        Reply::TooLong => Answer::TooLong,
    }
}
