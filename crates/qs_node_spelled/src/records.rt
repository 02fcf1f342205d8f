//! Which records have a spelling in bytes.
ghost use Rattle.std.specs.Prelude.{◌≡◌, ◌↔◌, true, All};
ghost use Rattle.qs_ops.specs.Spelled.{IsChange, AreChanges};
ghost use Rattle.qs_record.specs.Grammar.{IsRecord};

use crate::parts::{are_nodes, is_server, is_spelled, is_tid};
use qs_ops::{Changes, Op, is_change};
use qs_record::Record;

/// Whether the record has a spelling: its identifier, server, nodes, names and texts keep their limits.
pub fn is_record(rec: &Record) -> bool
    ensures { (result ≡ true) ↔ IsRecord rec.now }
{
    match rec {
        Record::Prepare {
            tid,
            server,
            changes,
            ..
        } => is_tid(*tid) && is_server(*server) && are_changes(changes),
        Record::Commit { tid, told } => is_tid(*tid) && are_nodes(told.as_slice()),
        Record::Aborted { tid } | Record::End { tid } => is_tid(*tid),
    }
}

/// Not too many for a count of four bytes.
fn are_changes(changes: &Changes) -> bool
    ensures { (result ≡ true) ↔ AreChanges changes.now }
{
    changes.len() <= u32::MAX as usize && changes.as_slice().iter().all(is_spelled_change)
}

fn is_spelled_change(op: &Op) -> bool
    ensures { (result ≡ true) ↔ IsChange op.now }
{
    is_change(op) && is_spelled(op)
}
