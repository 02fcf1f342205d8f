//! Operations and records, read front to back.
ghost use Rattle.std.specs.Prelude.{◌≡◌, IfOk};
ghost use Rattle.qs_ops.specs.declared.operation.Op.{Op};
ghost use Rattle.qs_record.specs.declared.record.Record.{Record};
ghost use Rattle.qs_record.specs.Grammar.{SpellsOp, SpellsRecord};
ghost use Rattle.qs_record.specs.Reading.{IsAhead, Takes, GivesIfRoom, IsOrNoMemory, op_at, record_at};

use crate::fault::RecordFault;
use crate::op_taking::take_op;
use crate::record::Record;
use crate::record_taking::take_record;
use qs_codec::Reader;
use qs_ops::Op;
use std::alloc::Global;

/// An operation: its tag, and its names, texts and numbers. `BadTag` comes at a tag that is none of
/// 1 to 17, and in a field `Short` where it is cut off, `TooLong` where a name has more than 64 bytes
/// or a text more than 4,096, and `BadText` at a byte that is not printable; `NoMemory` where memory
/// was refused. After a refusal the reader stands where it stood.
pub fn decode_op(alloc: Global, reader: &mut Reader<'_>) -> Result<Op, RecordFault>
    // An operation exactly where the next bytes spell it and there is memory, and just these are taken.
    ensures value { IfOk result (λ op. Takes (SpellsOp op) reader.old reader.new) }
    ensures only { (op : Op) → IsAhead (SpellsOp op) reader.old → IsOrNoMemory result op }

    // Which operation or fault it is; after a refusal nothing is taken.
    ensures exact { GivesIfRoom result reader.old reader.new (op_at reader.old) }
{
    let mut ahead = reader.ahead();
    let op = take_op(alloc, &mut ahead)?;
    *reader = ahead;
    Ok(op)
}

/// A record: its tag, the identifier, and what the record says of it. The first fault from the left
/// comes: `BadTag` at a tag of no record, at a server, at a node that does not rise, and at an
/// operation among the changes that is no change; `Short` where a field is cut off, and at a count
/// above the bytes that are left; the faults of an identifier and of an operation's fields; and
/// `NoMemory` where memory was refused. After a refusal the reader stands where it stood.
pub fn decode(alloc: Global, reader: &mut Reader<'_>) -> Result<Record, RecordFault>
    // A record exactly where the next bytes spell it and there is memory, and just these are taken.
    ensures value { IfOk result (λ rec. Takes (SpellsRecord rec) reader.old reader.new) }
    ensures only { (rec : Record) → IsAhead (SpellsRecord rec) reader.old → IsOrNoMemory result rec }

    // Which record or fault it is; after a refusal nothing is taken.
    ensures exact { GivesIfRoom result reader.old reader.new (record_at reader.old) }
{
    let mut ahead = reader.ahead();
    let rec = take_record(alloc, &mut ahead)?;
    *reader = ahead;
    Ok(rec)
}
