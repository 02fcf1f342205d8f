//! Which notes files issued, and which the machine tells.
ghost use Rattle.qs_world_filed.specs.Noting.{EachRunIssuesNotes};
ghost use Rattle.qs_world_filed.specs.Replied.{EachReplyTells, EachRunTellsNoted};
ghost use Rattle.qs_world_filed.specs.Told.{EachRunTellsNotes};

/// In each lawful history of a run each note of files that was served is among the notes of its transaction.
pub fn served_notes_are_told()
    ensures { EachRunTellsNotes }
{}

/// In every run each note that files wait for, and each that they have noted, they issued in this incarnation to the audit of the
/// audit node: with that text, and what is waited for under that number.
pub fn runs_issue_what_they_note()
    ensures { EachRunIssuesNotes }
{}

/// In every run, where the reply of another node comes to a note that files wait for, the machine tells that note, or its transaction is crossed at the audit server.
pub fn replies_tell_notes()
    ensures { EachReplyTells }
{}

/// In every run the machine tells each note that files have noted, or its transaction is crossed at the audit server.
pub fn runs_tell_what_is_noted()
    ensures { EachRunTellsNoted }
{}
