//! What came of the calls.

use anyhow::Error;
use qs_ops::{Reply, Vote};

/// Counts of replies and votes, so that a look tells whether each kind was drawn.
#[derive(Clone, Copy)]
pub(crate) struct Seen {
    served: u64,
    busy: u64,
    absent: u64,
    too_many: u64,
    too_long: u64,
    read_only: u64,
    refused: u64,
    agreed: u64,
    pub(crate) commits: u64,
    pub(crate) restarts: u64,
}

impl Seen {
    pub(crate) fn new() -> Seen {
        Seen {
            served: 0,
            busy: 0,
            absent: 0,
            too_many: 0,
            too_long: 0,
            read_only: 0,
            refused: 0,
            agreed: 0,
            commits: 0,
            restarts: 0,
        }
    }

    pub(crate) fn reply(&mut self, reply: &Reply) {
        let count = match reply {
            Reply::Busy { .. } => &mut self.busy,
            Reply::Absent => &mut self.absent,
            Reply::TooMany => &mut self.too_many,
            Reply::TooLong => &mut self.too_long,
            _ => &mut self.served,
        };
        *count = count.saturating_add(1);
    }

    pub(crate) fn vote(&mut self, vote: &Vote) {
        let count = match vote {
            Vote::ReadOnly => &mut self.read_only,
            Vote::Abort { .. } => &mut self.refused,
            Vote::Volatile | Vote::Recoverable => &mut self.agreed,
        };
        *count = count.saturating_add(1);
    }

    /// Tells them on standard error.
    pub(crate) fn tell<R: AllocGlobal + Eprint>(&self, rt: &R, name: &str) -> Result<(), Error> {
        eprintln!(rt;
            "{name}: served {} busy {} absent {} too many {} too long {}",
            self.served, self.busy, self.absent, self.too_many, self.too_long
        )?;
        eprintln!(rt;
            "{name}: read-only {} abort {} agreed {} commits {} restarts {}",
            self.read_only, self.refused, self.agreed, self.commits, self.restarts
        )?;
        Ok(())
    }
}
