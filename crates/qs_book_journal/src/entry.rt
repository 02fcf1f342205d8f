//! Entries of the journal: what happened, at which node, at which logical time.
ghost use Rattle.std.specs.Prelude.{◌≡◌, IfOk};
ghost use Rattle.std.specs.Option.{option_copied};

use qs_base::{
    Bytes, ClientNo, Copied, List, Member, NoMemory, NodeNo, Outcome, ServerNo, Stamp, Tid,
};
use qs_ops::{Answer, Cause, Op, Reply, Vote};

/// One entry of the journal. All entries of a step have its stamp.
#[derive(Debug, Drop)]
pub struct Entry {
    pub stamp: Stamp,
    pub node: NodeNo,
    pub act: Act,
}

/// What happened.
#[derive(Debug, Drop)]
pub enum Act {
    /// The client began a transaction and owns it.
    Begin {
        tid: Tid,
        label: Bytes,
        client: ClientNo,
    },
    /// A request went to a member. The number counts, from 1, the requests of that transaction
    /// from the issuing node to the member's node.
    Issue {
        tid: Tid,
        issuer: Member,
        member: Member,
        number: u32,
        op: Op,
    },
    /// The member served that request of that node.
    Serve {
        tid: Tid,
        member: Member,
        from: NodeNo,
        number: u32,
        reply: Reply,
    },
    /// The owner asked for commit.
    Ask {
        tid: Tid,
    },
    /// The member voted, for so many requests.
    Vote {
        tid: Tid,
        member: Member,
        vote: Vote,
        covers: u32,
    },
    /// The node counted an answer of the peer for all requests up to this number.
    Counted {
        tid: Tid,
        peer: NodeNo,
        up_to: u32,
    },
    /// The home decided. The cause is `None` exactly on commit.
    Decide {
        tid: Tid,
        outcome: Outcome,
        cause: Option<Cause>,
    },
    /// An immediate member was told that the transaction ends.
    Ending {
        tid: Tid,
        member: Member,
    },
    /// The member learnt the outcome.
    Learn {
        tid: Tid,
        member: Member,
        outcome: Outcome,
    },
    /// The client's command at this line was answered.
    Answer {
        client: ClientNo,
        line: u32,
        answer: Answer,
    },
    /// The transaction was lent to the client.
    Loan {
        tid: Tid,
        client: ClientNo,
    },
    /// The client gave the loan back.
    Yield {
        tid: Tid,
        client: ClientNo,
    },
    /// One tick of the node's timers.
    Tick,
    /// The node stopped.
    Crash {
        cause: CrashCause,
    },
    /// The node started in this incarnation and found these Prepares and Commits in its log.
    Restart {
        inc: u64,
        pend: List<Found>,
        done: List<Tid>,
    },
}

/// Why a node stopped.
#[derive(Clone, Copy, Debug)]
pub enum CrashCause {
    /// A line of the script, or a disk call that the script made fail.
    Plan,
    /// The disk's own count of faults rose from one number to the other.
    Disk { from: u64, to: u64 },
    /// A counter stood at its last value.
    Last { value: u64 },
    /// Memory was refused in a step.
    Memory,
}

/// A Prepare that a restart found not ended.
#[derive(Clone, Copy, Debug)]
pub struct Found {
    pub tid: Tid,
    pub server: ServerNo,
    pub covers: u32,
}

impl Copied for Entry {
    fn copy(&self) -> Result<Self, NoMemory> {
        Ok(Entry {
            stamp: self.stamp,
            node: self.node,
            act: self.act.copy()?,
        })
    }
}

impl Copied for Act {
    fn copy(&self) -> Result<Self, NoMemory> {
        Ok(match self {
            Act::Begin { tid, label, client } => Act::Begin {
                tid: *tid,
                label: label.copy()?,
                client: *client,
            },
            Act::Issue {
                tid,
                issuer,
                member,
                number,
                op,
            } => Act::Issue {
                tid: *tid,
                issuer: *issuer,
                member: *member,
                number: *number,
                op: op.copy()?,
            },
            Act::Serve {
                tid,
                member,
                from,
                number,
                reply,
            } => Act::Serve {
                tid: *tid,
                member: *member,
                from: *from,
                number: *number,
                reply: reply.copy()?,
            },
            Act::Ask { tid } => Act::Ask { tid: *tid },
            Act::Vote {
                tid,
                member,
                vote,
                covers,
            } => Act::Vote {
                tid: *tid,
                member: *member,
                vote: vote.copy()?,
                covers: *covers,
            },
            Act::Counted { tid, peer, up_to } => Act::Counted {
                tid: *tid,
                peer: *peer,
                up_to: *up_to,
            },
            Act::Decide {
                tid,
                outcome,
                cause,
            } => Act::Decide {
                tid: *tid,
                outcome: *outcome,
                cause: copied_cause(cause.as_ref())?,
            },
            Act::Ending { tid, member } => Act::Ending {
                tid: *tid,
                member: *member,
            },
            Act::Learn {
                tid,
                member,
                outcome,
            } => Act::Learn {
                tid: *tid,
                member: *member,
                outcome: *outcome,
            },
            Act::Answer {
                client,
                line,
                answer,
            } => Act::Answer {
                client: *client,
                line: *line,
                answer: answer.copy()?,
            },
            Act::Loan { tid, client } => Act::Loan {
                tid: *tid,
                client: *client,
            },
            Act::Yield { tid, client } => Act::Yield {
                tid: *tid,
                client: *client,
            },
            Act::Tick => Act::Tick,
            Act::Crash { cause } => Act::Crash { cause: *cause },
            Act::Restart { inc, pend, done } => Act::Restart {
                inc: *inc,
                pend: pend.copy()?,
                done: done.copy()?,
            },
        })
    }
}

impl Copied for Found {
    fn copy(&self) -> Result<Self, NoMemory> {
        Ok(*self)
    }
}

/// A copy of a cause, where there is one. The only error is a refusal of memory.
pub fn copied_cause(cause: Option<&Cause>) -> Result<Option<Cause>, NoMemory>
    ensures { IfOk result (λ copy. copy ≡ option_copied cause.entry) }
{
    match cause {
        Some(cause) => Ok(Some(cause.copy()?)),
        None => Ok(None),
    }
}
