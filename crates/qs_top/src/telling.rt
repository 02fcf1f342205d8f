//! What is told of a run: how it ended, and its output.
ghost use Rattle.std.specs.Prelude.{◌≡◌, ℕ, Err, IfOk, IfErr};
ghost use Rattle.qs_book_conformance.specs.Conforming.{Conforms};
ghost use Rattle.qs_book_machine.specs.Lawful.{book_after};
ghost use Rattle.qs_book_machine.specs.Opening.{opening};
ghost use Rattle.qs_world_plans.specs.Waiting.{waiting_of};
ghost use Rattle.qs_text.specs.Given.{given_of};
ghost use Rattle.qs_top.specs.Ends.{status_of};
ghost use Rattle.qs_top.specs.Verdicts.{IsRefusedAt, IsRefusal};

use crate::judging::judged;
use qs_base::{Bytes, List};
use qs_book::Opened;
use qs_book_journal::Entry;
use qs_book_script::{Script, Status, Waiting};
use qs_text::{Shown, given_text};
use qs_world_plans::waiting_of;
use std::alloc::Global;

/// How a run ended after so many rounds, with all its work done or not, and what of it is to be shown; else the status of a run of which nothing is told, since its journal is refused or memory was.
pub fn told(
    alloc: Global,
    script: &Script,
    rounds: u64,
    settled: bool,
    opened: &[Opened],
    journal: &List<Entry>,
    shown: Shown,
) -> Result<(Status, Bytes), Status>
    ensures conforms { IfOk result (λ told. Conforms script.now (opening opened.now) journal.now) }
    ensures status { IfOk result (λ told. told.0 ≡ status_of rounds settled (waiting_of script.now journal.now)) }
    ensures output { IfOk result (λ told. told.1 ≡ given_of script.now journal.now (book_after (opening opened.now) journal.now) shown) }
    ensures refused { (line clause : ℕ) → result ≡ Err (Status.Unlawful line clause) → IsRefusedAt script.now (opening opened.now) journal.now line clause }
    ensures refusal { IfErr result (λ status. IsRefusal status) }
{
    let checker = match judged(alloc, script, opened, journal.as_slice()) {
        Ok(checker) => checker,
        Err(status) => return Err(status),
    };
    let Ok(waiting) = waiting_of(alloc, script, journal.as_slice()) else {
        return Err(Status::NoMemory);
    };
    let Ok(output) = given_text(alloc, script, journal, checker.book(), shown) else {
        return Err(Status::NoMemory);
    };
    Ok((status_of(rounds, settled, waiting), output))
}

/// How a run ended, some of whose clients may wait for an answer.
fn status_of(rounds: u64, settled: bool, waiting: List<Waiting>) -> Status
    ensures { result ≡ status_of rounds settled waiting }
{
    if settled && waiting.is_empty() {
        return Status::Finished;
    }
    Status::Unfinished { rounds, waiting }
}
