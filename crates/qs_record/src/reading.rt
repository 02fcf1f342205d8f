//! Identifiers, members and lists of nodes, read front to back.
ghost use Rattle.std.specs.Prelude.{◌≡◌, Ok, List, IfOk};
ghost use Rattle.qs_base.specs.declared.identifiers.Member.{Member};
ghost use Rattle.qs_base.specs.declared.identifiers.NodeNo.{NodeNo};
ghost use Rattle.qs_base.specs.declared.identifiers.Tid.{Tid};
ghost use Rattle.qs_codec.specs.Reading.{Gives};
ghost use Rattle.qs_record.specs.Grammar.{SpellsTid, SpellsMember, SpellsNodes};
ghost use Rattle.qs_record.specs.Reading.{IsAhead, Takes, GivesIfRoom, IsOrNoMemory, tid_at, member_at, nodes_at};

use crate::fault::RecordFault;
use crate::taking::{take_member, take_nodes, take_tid};
use qs_base::{List, Member, NodeNo, Tid};
use qs_codec::{CodecFault, Reader};
use std::alloc::Global;

/// An identifier, in 13 bytes. `Short` comes where one of its fields is cut off, `BadTag` where its
/// home is not below 16, and `BadNumber` where its incarnation is not below 2^62. After a fault the
/// reader stands where it stood.
pub fn read_tid(reader: &mut Reader<'_>) -> Result<Tid, CodecFault>
    // An identifier exactly where the next bytes spell it, and just these are taken.
    ensures value { IfOk result (λ tid. Takes (SpellsTid tid) reader.old reader.new) }
    ensures only { (tid : Tid) → IsAhead (SpellsTid tid) reader.old → result ≡ Ok tid }

    // Which identifier or fault it is; after a fault nothing is taken.
    ensures exact { Gives (λ tid. tid) result reader.old reader.new (tid_at reader.old) }
{
    let mut ahead = reader.ahead();
    let tid = take_tid(&mut ahead)?;
    *reader = ahead;
    Ok(tid)
}

/// A member, in two bytes. `Short` comes where one of them is missing, and `BadTag` where its node is
/// not below 16 or its server is not 0 to 6 or 32 to 95. After a fault the reader stands where it
/// stood.
pub fn read_member(reader: &mut Reader<'_>) -> Result<Member, CodecFault>
    // A member exactly where the next bytes spell it, and just these are taken.
    ensures value { IfOk result (λ member. Takes (SpellsMember member) reader.old reader.new) }
    ensures only { (member : Member) → IsAhead (SpellsMember member) reader.old → result ≡ Ok member }

    // Which member or fault it is; after a fault nothing is taken.
    ensures exact { Gives (λ member. member) result reader.old reader.new (member_at reader.old) }
{
    let mut ahead = reader.ahead();
    let member = take_member(&mut ahead)?;
    *reader = ahead;
    Ok(member)
}

/// A list of nodes, in a byte and one for each. `Short` comes where the count is missing or above
/// the bytes that are left, and `BadTag` at the first node that is not below 16 or not above the one
/// before it; `NoMemory` where memory was refused. After a refusal the reader stands where it stood.
pub fn read_nodes(alloc: Global, reader: &mut Reader<'_>) -> Result<List<NodeNo>, RecordFault>
    // A list exactly where the next bytes spell it and there is memory, and just these are taken.
    ensures value { IfOk result (λ nodes. Takes (SpellsNodes nodes) reader.old reader.new) }
    ensures only { (nodes : List NodeNo) → IsAhead (SpellsNodes nodes) reader.old → IsOrNoMemory result nodes }

    // Which list or fault it is; after a refusal nothing is taken.
    ensures exact { GivesIfRoom result reader.old reader.new (nodes_at reader.old) }
{
    let mut ahead = reader.ahead();
    let nodes = take_nodes(alloc, &mut ahead)?;
    *reader = ahead;
    Ok(nodes)
}
