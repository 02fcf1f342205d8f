//! Histories with their verdicts: lawful ones, and neighbours of each that break one rule.
ghost use Rattle.qs_book_conformance.specs.CrashRows.{LineRows, AfterRows, SharedRows, CauseRows};
ghost use Rattle.qs_book_conformance.specs.FileRows.{QuotaRows, NoteRows, FoundRows, CrossedRows};
ghost use Rattle.qs_book_conformance.specs.LoanRows.{LentRows, TwoLoanRows, EndedRows, FarRows, AgainRows};
ghost use Rattle.qs_book_conformance.specs.OwnerRows.{CommitRows, AbortRows, FullRows};

/// An owner commits, aborts, or is refused.
pub fn owner_rows()
    ensures commit { CommitRows }
    ensures abort { AbortRows }
    ensures full { FullRows }
{}

/// A borrower takes loans, gives them back, and finds them void.
pub fn loan_rows()
    ensures lent { LentRows }
    ensures two { TwoLoanRows }
    ensures ended { EndedRows }
    ensures far { FarRows }
    ensures again { AgainRows }
{}

/// Files keep to their quota, and tell the audit what they hold.
pub fn file_rows()
    ensures quota { QuotaRows }
    ensures note { NoteRows }
    ensures found { FoundRows }
    ensures crossed { CrossedRows }
{}

/// Crashes have lines of their own, and other causes are what they say.
pub fn crash_rows()
    ensures line { LineRows }
    ensures after { AfterRows }
    ensures shared { SharedRows }
    ensures cause { CauseRows }
{}
