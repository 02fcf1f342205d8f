//! Records, read by a reader that may stand anywhere after a fault.
ghost use Rattle.std.specs.Prelude.{IfOk};
ghost use Rattle.qs_record.specs.Reading.{FindsIfRoom, Takes, TakesRecord, prepare_at, commit_at, record_behind, record_at};
ghost use Rattle.qs_record.specs.Grammar.{SpellsRecord};

use crate::bytes_where::take_server;
use crate::fault::RecordFault;
use crate::op_taking::take_changes;
use crate::place::bad_tag;
use crate::record::Record;
use crate::taking::{take_nodes, take_tid};
use qs_base::ServerNo;
use qs_codec::Reader;
use std::alloc::Global;

// A record.
#[tactic(auto, using(crate::proofs::Records::record_answered), unfolding(crate::specs::Reading::record_at))]
pub(crate) fn take_record(alloc: Global, reader: &mut Reader<'_>) -> Result<Record, RecordFault>
    ensures exact { FindsIfRoom result reader.new (record_at reader.old) }
    ensures value { IfOk result (λ rec. Takes (SpellsRecord rec) reader.old reader.new) }
{
    let before = reader.ahead();
    let tag = reader.u8()?;
    take_behind(alloc, &before, tag, reader)
}

// What stands behind a tag, which stood at the place of `before`.
#[tactic(auto, using(crate::proofs::Records::aborted_taken, crate::proofs::Records::end_taken), unfolding(crate::specs::Reading::record_behind, crate::specs::Reading::aborted_at, crate::specs::Reading::end_at))]
fn take_behind(
    alloc: Global,
    before: &Reader<'_>,
    tag: u8,
    reader: &mut Reader<'_>,
) -> Result<Record, RecordFault>
    ensures exact { FindsIfRoom result reader.new (record_behind before.now.at tag reader.old) }
    ensures value { IfOk result (TakesRecord tag reader.old reader.new) }
{
    match tag {
        1 => take_prepare(alloc, reader),
        2 => take_commit(alloc, reader),
        3 => {
            let tid = take_tid(reader)?;
            Ok(Record::Aborted { tid })
        }
        4 => {
            let tid = take_tid(reader)?;
            Ok(Record::End { tid })
        }
        _ => Err(RecordFault::from(bad_tag(before, tag))),
    }
}

// What stands behind the tag of a vote.
#[tactic(auto, using(crate::proofs::Records::prepare_taken), unfolding(crate::specs::Reading::prepare_at))]
fn take_prepare(alloc: Global, reader: &mut Reader<'_>) -> Result<Record, RecordFault>
    ensures exact { FindsIfRoom result reader.new (prepare_at reader.old) }
    ensures value { IfOk result (TakesRecord 1 reader.old reader.new) }
{
    let tid = take_tid(reader)?;
    let server = take_server(reader)?;
    let covers = reader.u32()?;
    let changes = take_changes(alloc, reader)?;
    Ok(Record::Prepare {
        tid,
        server: ServerNo(server),
        covers,
        changes,
    })
}

// What stands behind the tag of a decision.
#[tactic(auto, using(crate::proofs::Records::commit_taken), unfolding(crate::specs::Reading::commit_at))]
fn take_commit(alloc: Global, reader: &mut Reader<'_>) -> Result<Record, RecordFault>
    ensures exact { FindsIfRoom result reader.new (commit_at reader.old) }
    ensures value { IfOk result (TakesRecord 2 reader.old reader.new) }
{
    let tid = take_tid(reader)?;
    let told = take_nodes(alloc, reader)?;
    Ok(Record::Commit { tid, told })
}
