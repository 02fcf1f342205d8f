//! What holds of every log.
ghost use Rattle.std.specs.Prelude.{◌≡◌, ◌++◌, ℕ, List, [], ◌∷◌};
ghost use Rattle.qs_base.specs.declared.identifiers.NodeNo.{NodeNo};
ghost use Rattle.qs_base.specs.declared.identifiers.Tid.{Tid};
ghost use Rattle.qs_ops.specs.declared.operation.Op.{Op};
ghost use Rattle.qs_record.specs.declared.record.Record.{Record};
ghost use Rattle.qs_record.specs.declared.record.Record.TheVariants as records;
ghost use Rattle.qs_restart.specs.Recovery.{recovery, files_no, audit_no, extra_no};
ghost use Rattle.qs_restart.specs.Standing.{open_prepares, open_commits, last_changes, state, StateSays};

/// The votes that recovery keeps are those behind which no later vote of the same transaction and
/// server stands and nothing that ends the transaction; the Commits that have still to be told are
/// those with a list behind which nothing ends it.
pub fn what_stands_open_is_kept()
    ensures votes { (log : List Record) → (recovery log).prepared ≡ open_prepares log }
    ensures commits { (log : List Record) → (recovery log).untold ≡ open_commits log }
{}

/// A Commit commits at each server the changes of the transaction's last vote there, where that
/// stands open, and nothing else; no other record commits anything.
pub fn commits_apply_the_last_vote()
    ensures files { (log : List Record) (tid : Tid) (told : List NodeNo) → (recovery (log ++ records.Commit tid told ∷ [])).files ≡ (recovery log).files ++ last_changes tid files_no log }
    ensures audit { (log : List Record) (tid : Tid) (told : List NodeNo) → (recovery (log ++ records.Commit tid told ∷ [])).audit ≡ (recovery log).audit ++ last_changes tid audit_no log }
    ensures extra { (log : List Record) (tid : Tid) (told : List NodeNo) → (recovery (log ++ records.Commit tid told ∷ [])).extra ≡ (recovery log).extra ++ last_changes tid extra_no log }
{}

/// A log that begins with a state says its contents, and names no transaction by it.
pub fn a_state_says_the_contents()
    ensures state { (node : ℕ) (files audit extra : List Op) → StateSays files audit extra (recovery (state node files audit extra)) }
{}
