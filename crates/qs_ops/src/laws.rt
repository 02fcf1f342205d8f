//! What the laws of servers come to.
ghost use Rattle.std.specs.Prelude.{◌≡◌, ℕ, List, []};
ghost use Rattle.std.specs.List.{fold};
ghost use Rattle.qs_ops.specs.Places.{IsInOrder};
ghost use Rattle.qs_ops.specs.declared.operation.Op.{Op};
ghost use Rattle.qs_ops.specs.Server.{AreContents};
ghost use Rattle.qs_ops.specs.Table.{TableValue, apply_change, apply_note};
ghost use Rattle.qs_ops.specs.declared.server.ServerKind.TheVariants as kinds;

/// What `contents` gives stands for the committed contents: applied in order to empty contents, it gives them again.
pub fn contents_are_given_whole()
    ensures files { (table : TableValue) (quota : ℕ) (changes : List Op) → IsInOrder table.contents → AreContents (kinds.Files quota) table changes → fold apply_change [] changes ≡ table.contents }
    ensures audit { (table : TableValue) (changes : List Op) → AreContents kinds.Audit table changes → fold apply_note [] changes ≡ table.notes }
{}
