//! Every run keeps rules of files.
ghost use Rattle.qs_world_filed.specs.Parts.{as_set, noted, within_quotas};
ghost use Rattle.qs_world_filed.specs.Runs.{EachRunKeeps, RunsWithoutAudit};

/// In every run the limit that files name as they refuse is the script's quota, and their notes go to the audit of the script's audit node.
pub fn runs_keep_what_is_set()
    ensures { EachRunKeeps as_set }
{}

/// In every run what files vote for commit, or refuse for want of room, is within the script's quota, or its transaction is crossed there.
pub fn runs_keep_quotas()
    ensures { EachRunKeeps within_quotas }
{}

/// In every run a vote of files for commit is noted as it is made: the note that tells how many changes files have pending then was served at the script's audit node, or the
/// transaction is crossed there.
pub fn runs_note_votes()
    ensures { EachRunKeeps noted }
{}

/// So a run whose script names no audit node keeps all the rules of files.
pub fn runs_without_audit_keep_files_rules()
    ensures { RunsWithoutAudit }
{}
