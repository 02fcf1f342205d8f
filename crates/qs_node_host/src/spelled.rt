//! Whether all that a step brings about has a spelling.
ghost use Rattle.std.specs.Prelude.{◌≡◌, ◌↔◌, true, All};
ghost use Rattle.qs_record.specs.Grammar.{IsRecord};
ghost use Rattle.qs_node_host.specs.Spelled.{AreSpelled, IsSent};

use qs_node_spelled::{is_record, is_sendable};
use qs_node_step::{Effects, Sending};
use qs_record::Record;

/// Whether each record and each message has a spelling.
pub fn are_spelled(out: &Effects) -> bool
    ensures { (result ≡ true) ↔ AreSpelled out.now }
{
    out.records.as_slice().iter().all(is_written) && out.messages.as_slice().iter().all(is_sent)
}

// (a function of this crate, as what is handed to `all` has to be)
fn is_written(rec: &Record) -> bool
    ensures { (result ≡ true) ↔ IsRecord rec.now }
{
    is_record(rec)
}

fn is_sent(sending: &Sending) -> bool
    ensures { (result ≡ true) ↔ IsSent sending.now }
{
    is_sendable(&sending.message)
}
