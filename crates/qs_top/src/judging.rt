//! A run judges its own journal.
ghost use Rattle.std.specs.Prelude.{◌≡◌, ℕ, Err, IfOk, IfErr};
ghost use Rattle.qs_book_conformance.specs.Conforming.{Conforms};
ghost use Rattle.qs_book_machine.specs.Lawful.{book_after};
ghost use Rattle.qs_book_machine.specs.Opening.{opening};
ghost use Rattle.qs_top.specs.Verdicts.{course_of, line_of, IsRefusedAt, IsRefusal, IsJudged, IsTakenIn};

use qs_base::NoMemory;
use qs_book::Opened;
use qs_book_check::{CheckFault, Checker};
use qs_book_conformance::no_misfit_means_conforming;
use qs_book_journal::Entry;
use qs_book_script::{Script, Status};
use std::alloc::Global;

/// The clause that stands for the rules of the script, which have no numbers.
const RULE_OF_SCRIPT: u16 = 0;

/// What the reference machine and the script say after the journal, from what the logs held as the nodes were started; else the
/// status of a run whose journal they refuse.
#[tactic(auto, using(crate::proofs::Courses::book_of_course))]
pub fn judged(
    alloc: Global,
    script: &Script,
    opened: &[Opened],
    journal: &[Entry],
) -> Result<Checker, Status>
    ensures conforms { IfOk result (λ checker. Conforms script.now (opening opened.now) journal.now) }
    ensures course { IfOk result (λ checker. checker ≡ course_of script.now (opening opened.now) journal.now) }
    ensures book { IfOk result (λ checker. checker.book ≡ book_after (opening opened.now) journal.now) }
    ensures refused { (line clause : ℕ) → result ≡ Err (Status.Unlawful line clause) → IsRefusedAt script.now (opening opened.now) journal.now line clause }
    ensures status { IfErr result (λ status. IsRefusal status) }
{
    no_misfit_means_conforming();
    let mut checker = match Checker::new(alloc, script, opened) {
        Ok(checker) => checker,
        Err(NoMemory) => return Err(Status::NoMemory),
    };
    match take_in(&mut checker, journal) {
        Ok(()) => Ok(checker),
        Err(status) => Err(status),
    }
}

/// Takes the entries in, up to the first that does not conform.
fn take_in(checker: &mut Checker, journal: &[Entry]) -> Result<(), Status>
    ensures { IsTakenIn checker.old journal.now checker.new result }
{
    let mut place = 0;
    let mut rest = journal;
    while let [entry, more @ ..] = rest {
        match judge(checker, entry, place) {
            Ok(()) => {}
            Err(status) => return Err(status),
        }
        place += 1;
        rest = more;
    }
    Ok(())
}

/// The line that the entry with this place has where the history is printed; lines end at 32 bits.
fn line_of(place: usize) -> u32
    ensures { result ≡ line_of place }
{
    if place < u32::MAX as usize {
        place as u32 + 1
    } else {
        u32::MAX
    }
}

/// Judges the entry with this place.
#[tactic(auto, using(crate::proofs::Courses::told_of))]
fn judge(checker: &mut Checker, entry: &Entry, place: usize) -> Result<(), Status>
    ensures { IsJudged place checker.old entry.now checker.new result }
{
    match checker.take_entry(entry) {
        Ok(()) => Ok(()),
        Err(CheckFault::Unlawful { clause }) => Err(Status::Unlawful {
            line: line_of(place),
            clause,
        }),
        Err(CheckFault::Broken { .. }) => Err(Status::Unlawful {
            line: line_of(place),
            clause: RULE_OF_SCRIPT,
        }),
        Err(CheckFault::NoMemory) => Err(Status::NoMemory),
    }
}
