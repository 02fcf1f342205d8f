//! What holds of the verdict on a history.
ghost use Rattle.std.specs.Prelude.{◌≡◌, ◌↔◌, List, None};
ghost use Rattle.qs_book_journal.specs.declared.entry.Entry.{Entry};
ghost use Rattle.qs_book_machine.specs.Book.{BookValue};
ghost use Rattle.qs_book_script.specs.declared.script.Script.{Script};
ghost use Rattle.qs_book_conformance.specs.Conforming.{Conforms, first_misfit};

/// A history has no misfit exactly where it is lawful and keeps to the script.
pub fn no_misfit_means_conforming()
    ensures { (script : Script) (book : BookValue) (history : List Entry) → (first_misfit script book history ≡ None) ↔ Conforms script book history }
{}
