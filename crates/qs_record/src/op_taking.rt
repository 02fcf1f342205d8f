//! Operations and lists of changes, read by a reader that may stand anywhere after a fault.
ghost use Rattle.std.specs.Prelude.{IfOk};
ghost use Rattle.qs_ops.specs.Spelled.{IsChange};
ghost use Rattle.qs_record.specs.Grammar.{SpellsOp, SpellsChanges};
ghost use Rattle.qs_record.specs.Reading.{FindsIfRoom, Takes, TakesChanges, op_at, change_at, changes_behind, changes_at};

use crate::bytes_where::take_change_tag;
use crate::fault::RecordFault;
use crate::op_behind::take_behind;
use crate::place::short;
use qs_base::List;
use qs_codec::Reader;
use qs_ops::{Changes, Op};
use std::alloc::Global;

// An operation.
#[tactic(auto, using(crate::proofs::Ops::op_answered), unfolding(crate::specs::Reading::op_at))]
pub(crate) fn take_op(alloc: Global, reader: &mut Reader<'_>) -> Result<Op, RecordFault>
    ensures exact { FindsIfRoom result reader.new (op_at reader.old) }
    ensures value { IfOk result (λ op. Takes (SpellsOp op) reader.old reader.new) }
{
    let before = reader.ahead();
    let tag = reader.u8()?;
    take_behind(alloc, &before, tag, reader)
}

// Changes behind their count.
#[tactic(auto, using(crate::proofs::Ops::changes_answered), unfolding(crate::specs::Reading::changes_at))]
pub(crate) fn take_changes(alloc: Global, reader: &mut Reader<'_>) -> Result<Changes, RecordFault>
    ensures exact { FindsIfRoom result reader.new (changes_at reader.old) }
    ensures value { IfOk result (λ changes. Takes (SpellsChanges changes) reader.old reader.new) }
{
    let before = reader.ahead();
    let count = reader.u32()?;
    if reader.left() < count as usize {
        return Err(RecordFault::from(short(&before, count as u64)));
    }
    take_each(alloc, reader, count)
}

// So many changes.
#[tactic(auto, using(crate::proofs::Ops::changes_begun, crate::proofs::Ops::changes_on, crate::proofs::Ops::changes_ended, crate::proofs::Ops::changes_done, crate::proofs::Ops::changes_read))]
fn take_each(alloc: Global, reader: &mut Reader<'_>, count: u32) -> Result<Changes, RecordFault>
    ensures exact { FindsIfRoom result reader.new (changes_behind count reader.old) }
    ensures value { IfOk result (TakesChanges count reader.old reader.new) }
{
    let mut changes = List::new(alloc);
    for _turn in 0..count {
        changes.push(take_change(alloc, reader)?)?;
    }
    Ok(changes)
}

// A change.
#[tactic(auto, using(crate::proofs::Ops::op_answered, crate::proofs::Ops::change_answered), unfolding(crate::specs::Reading::change_at))]
fn take_change(alloc: Global, reader: &mut Reader<'_>) -> Result<Op, RecordFault>
    ensures exact { FindsIfRoom result reader.new (change_at reader.old) }
    ensures value { IfOk result (λ op. Takes (SpellsOp op) reader.old reader.new) }
    ensures valid { IfOk result IsChange }
{
    let before = reader.ahead();
    let tag = take_change_tag(reader)?;
    take_behind(alloc, &before, tag, reader)
}
