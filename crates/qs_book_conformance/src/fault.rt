//! What is wrong with a journal: at which entry, and which rule that breaks.

/// The first entry of a history that does not conform, by its place from 0.
#[derive(Clone, Copy)]
pub struct Misfit {
    pub place: usize,
    pub fault: Fault,
}

/// Why an entry does not conform.
#[derive(Clone, Copy)]
pub enum Fault {
    /// It is no lawful step of the reference machine: the first clause that it breaks.
    Unlawful { clause: u16 },
    /// It is one, and does not keep to the script: the first rule that it breaks.
    Broken { rule: Rule },
}

/// The rules by which a journal keeps to a script.
#[derive(Clone, Copy, Debug)]
pub enum Rule {
    /// What a client makes is what the first of its commands that are not answered says, at its node.
    CarriesOutItsCommand,
    /// Each command makes one thing.
    OncePerCommand,
    /// A borrower yields and issues on a loan that stands.
    LoanStands,
    /// An issuer is a client or files.
    IssuerIsKnown,
    /// Files issue to the audit of the script's audit node.
    NoteGoesToAudit,
    /// The limit in a refusal is the quota of the node.
    LimitIsTheQuota,
    /// What files vote for has no more bytes than the quota, as the vote is made.
    WithinQuota,
    /// Files of a run with audit vote recoverable with a served note of their present count, unless it is not known
    /// which of two notes was served.
    NoteWasServed,
    /// The cause of an abort is one that the script leaves to the home.
    CauseIsAllowed,
    /// The answered line is that of the first of the client's commands that are not answered, at its node.
    AnswersInOrder,
    /// The answer is due to the command.
    AnswerIsDue,
    /// A loan is made at the borrower's node.
    LoanAtItsNode,
    /// A crash by plan has a fault line of its own.
    CrashHasItsLine,
    /// The counts of a disk's faults follow one another.
    DiskCountsFollow,
    /// A counter that stops a node stands at a last value.
    StandsAtLast,
}
