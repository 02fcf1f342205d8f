//! Commands that begin and end transactions.
ghost use Rattle.std.specs.Prelude.{◌≡◌};
ghost use Rattle.qs_text_script.specs.Rules.{is_begin};
ghost use Rattle.qs_text_script.specs.Script.{is_end};

use qs_book_journal::Command;

/// Whether the command begins a transaction.
pub fn is_begin(command: &Command) -> bool
    ensures { result ≡ is_begin command.now }
{
    matches!(command, Command::Begin)
}

/// Whether the command ends a transaction.
pub fn is_end(command: &Command) -> bool
    ensures { result ≡ is_end command.now }
{
    matches!(command, Command::Commit | Command::Abort)
}
