//! What holds of the texts of histories.
ghost use Rattle.qs_text_history.specs.Laws.{HasNoFault, IsOneHistory};

/// A text is the text of one history at most.
pub fn one_text_is_one_history()
    ensures { IsOneHistory }
{}

/// No text within the limit is the text of a history and has a fault too.
pub fn no_history_has_a_fault()
    ensures { HasNoFault }
{}
