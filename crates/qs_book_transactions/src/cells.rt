//! The cell that an outcome makes.
ghost use Rattle.std.specs.Prelude.{◌≡◌};
ghost use Rattle.qs_book_machine.specs.Transaction.{cell_of};

use qs_base::Outcome;
use qs_book_machine::Cell;

/// The cell of an outcome.
pub fn cell_of(outcome: Outcome) -> Cell
    ensures { result ≡ cell_of outcome }
{
    match outcome {
        Outcome::Commit => Cell::Commit,
        Outcome::Abort => Cell::Abort,
    }
}
