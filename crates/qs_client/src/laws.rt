//! What clients keep. Each is a function that does nothing.
ghost use Rattle.std.specs.Prelude.{◌≡◌, ◌↔◌, ◌++◌, [], ◌∷◌, List, Option, Some, None};
ghost use Rattle.qs_client.specs.Progress.{begun, to_send, number_at, sent, heard, sent_lines, IsEnded};
ghost use Rattle.qs_client.specs.declared.progress.Progress.{Progress};
ghost use Rattle.qs_book_journal.specs.declared.script_line.LineAnswer.{LineAnswer};
ghost use Rattle.qs_book_journal.specs.declared.script_line.ScriptLine.{ScriptLine};

/// What a client has sent is a front of its lines: nothing as it begins, a line more where it sends
/// one, and the same where it takes an answer or none.
pub fn commands_in_order()
    ensures begins { (lines : List ScriptLine) → sent_lines (begun lines) ≡ [] }
    ensures sends { (line : ScriptLine) (progress : Progress) → to_send progress ≡ Some line → sent_lines (sent progress) ≡ sent_lines progress ++ line ∷ [] }
    ensures takes { (answer : Option LineAnswer) (progress : Progress) → sent_lines (heard answer progress) ≡ sent_lines progress }
{}

/// A client stands at no line exactly where it stands behind its last one.
pub fn ends_behind_its_lines()
    ensures { (progress : Progress) → (number_at progress ≡ None) ↔ IsEnded progress }
{}
