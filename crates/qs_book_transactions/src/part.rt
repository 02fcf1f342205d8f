//! What a member did for a transaction in an incarnation, and how it changes.
ghost use Rattle.std.specs.Prelude.{◌≡◌, ◌+◌, IfOk};
ghost use Rattle.qs_book_machine.specs.Transaction.{served_part, lent_part, serving_part, voted_part, made_part, yielded_part, agrees_in, learnt_part, ended_part, found_part, is_let_go, may_learn_still};

use qs_base::{Class, NoMemory, Outcome};
use qs_book_machine::Part;
use qs_ops::Vote;

/// The part of a member that did nothing.
pub const NO_PART: Part = Part {
    served: 0,
    voted: 0,
    covered: 0,
    read_only: false,
    due: false,
    aborted: false,
    pending: 0,
    found: 0,
    step: 0,
    unmade: 0,
    made: 0,
    yielded: 0,
};

/// What a restart leaves that found the member's vote with these covers, and so many changes.
pub fn found_part(covers: u64, changes: u64) -> Part
    ensures { result ≡ found_part covers changes }
{
    Part {
        due: true,
        pending: changes,
        found: covers,
        ..NO_PART
    }
}

/// A member of that class did one more request in the step of this stamp; with `done` one more
/// change of a server is pending. Want of memory stands for a count at its end.
pub fn serving_part(part: Part, class: Class, stamp: u64, done: bool) -> Result<Part, NoMemory>
    ensures { IfOk result (λ next. next ≡ serving_part class stamp done part) }
{
    match class {
        Class::Activity => lent_part(part, stamp),
        _ => served_part(part, stamp, done),
    }
}

fn served_part(part: Part, stamp: u64, done: bool) -> Result<Part, NoMemory>
    ensures { IfOk result (λ next. next ≡ served_part stamp done part) }
{
    let pending = if done {
        one_more(part.pending)?
    } else {
        part.pending
    };
    Ok(Part {
        served: one_more(part.served)?,
        due: true,
        pending,
        step: stamp,
        ..part
    })
}

fn lent_part(part: Part, stamp: u64) -> Result<Part, NoMemory>
    ensures { IfOk result (λ next. next ≡ lent_part stamp part) }
{
    let unmade = if part.step == stamp {
        one_more(part.unmade)?
    } else {
        1
    };
    Ok(Part {
        served: one_more(part.served)?,
        due: true,
        step: stamp,
        unmade,
        ..part
    })
}

/// What it is once its member voted.
pub fn voted_part(part: Part, vote: &Vote) -> Part
    ensures { result ≡ voted_part vote.now part }
{
    match vote {
        Vote::Abort { .. } => Part {
            voted: part.served,
            read_only: false,
            ..part
        },
        Vote::ReadOnly => Part {
            voted: part.served,
            covered: part.served,
            read_only: true,
            pending: 0,
            ..part
        },
        Vote::Volatile | Vote::Recoverable => Part {
            voted: part.served,
            covered: part.served,
            read_only: false,
            ..part
        },
    }
}

/// One of the loans that the client was asked to take is made. Want of memory stands for a
/// count at its end.
pub fn made_part(part: Part) -> Result<Part, NoMemory>
    ensures { IfOk result (λ next. next ≡ made_part part) }
{
    Ok(Part {
        made: one_more(part.made)?,
        unmade: part.unmade.saturating_sub(1),
        ..part
    })
}

/// The client gave one of its loans back. Want of memory stands for a count at its end.
pub fn yielded_part(part: Part) -> Result<Part, NoMemory>
    ensures { IfOk result (λ next. next ≡ yielded_part part) }
{
    Ok(Part {
        yielded: one_more(part.yielded)?,
        ..part
    })
}

/// Whether what a member of that class did agrees to a commit: all that a two-phase member
/// served stands before a vote for it, and a client took and gave back each loan.
pub fn agrees_in(part: &Part, class: Class) -> bool
    ensures { result ≡ agrees_in class part.now }
{
    match class {
        Class::Recoverable | Class::Volatile => part.covered == part.served,
        Class::Activity => part.made == part.served && part.yielded == part.made,
        Class::Immediate | Class::Standard | Class::Delayed => true,
    }
}

/// What it is once its member learnt the outcome.
pub fn learnt_part(part: Part, outcome: Outcome) -> Part
    ensures { result ≡ learnt_part outcome part }
{
    Part {
        due: false,
        pending: 0,
        aborted: part.aborted || outcome == Outcome::Abort,
        ..part
    }
}

/// What it is once its member was told that the transaction ends.
pub fn ended_part(part: Part) -> Part
    ensures { result ≡ ended_part part }
{
    Part {
        due: false,
        pending: 0,
        ..part
    }
}

/// Whether its last vote is read-only and nothing was served since: it is told nothing.
pub fn is_let_go(part: &Part) -> bool
    ensures { result ≡ is_let_go part.now }
{
    part.read_only && part.voted == part.served
}

/// Whether it has an outcome to learn.
pub fn may_learn_still(part: &Part) -> bool
    ensures { result ≡ may_learn_still part.now }
{
    part.due && !is_let_go(part)
}

/// One more, where the count is not at its end.
fn one_more(count: u64) -> Result<u64, NoMemory>
    ensures { IfOk result (λ more. more ≡ count + 1) }
{
    count.checked_add(1).ok_or(NoMemory)
}
