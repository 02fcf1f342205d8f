//! Identifiers, members and lists of nodes, read by a reader that may stand anywhere after a fault.
ghost use Rattle.std.specs.Prelude.{IfOk};
ghost use Rattle.qs_record.specs.Grammar.{SpellsTid, SpellsMember, SpellsNodes};
ghost use Rattle.qs_record.specs.Reading.{Finds, FindsIfRoom, Takes, TakesRising, tid_at, member_at, rising_at, nodes_at};

use crate::bytes_where::{take_node, take_node_from, take_server};
use crate::fault::RecordFault;
use crate::place::short;
use qs_base::{List, Member, NodeNo, ServerNo, Tid};
use qs_codec::{CodecFault, Reader};
use std::alloc::Global;

// An identifier.
#[tactic(auto, using(crate::proofs::Readers::tid_taken), unfolding(crate::specs::Reading::tid_at))]
pub(crate) fn take_tid(reader: &mut Reader<'_>) -> Result<Tid, CodecFault>
    ensures exact { Finds result reader.new (tid_at reader.old) }
    ensures value { IfOk result (λ tid. Takes (SpellsTid tid) reader.old reader.new) }
{
    let home = take_node(reader)?;
    let inc = reader.number()?;
    let seq = reader.u32()?;
    Ok(Tid {
        home: NodeNo(home),
        inc,
        seq,
    })
}

// A member.
#[tactic(auto, using(crate::proofs::Readers::member_taken), unfolding(crate::specs::Reading::member_at))]
pub(crate) fn take_member(reader: &mut Reader<'_>) -> Result<Member, CodecFault>
    ensures exact { Finds result reader.new (member_at reader.old) }
    ensures value { IfOk result (λ member. Takes (SpellsMember member) reader.old reader.new) }
{
    let node = take_node(reader)?;
    let server = take_server(reader)?;
    Ok(Member {
        node: NodeNo(node),
        server: ServerNo(server),
    })
}

// A list of nodes.
#[tactic(auto, using(crate::proofs::Readers::nodes_taken), unfolding(crate::specs::Reading::nodes_at))]
pub(crate) fn take_nodes(
    alloc: Global,
    reader: &mut Reader<'_>,
) -> Result<List<NodeNo>, RecordFault>
    ensures exact { FindsIfRoom result reader.new (nodes_at reader.old) }
    ensures value { IfOk result (λ nodes. Takes (SpellsNodes nodes) reader.old reader.new) }
{
    let before = reader.ahead();
    let count = reader.u8()?;
    if reader.left() < count as usize {
        return Err(RecordFault::from(short(&before, count as u64)));
    }
    take_rising(alloc, reader, count)
}

// So many nodes that rise.
fn take_rising(
    alloc: Global,
    reader: &mut Reader<'_>,
    count: u8,
) -> Result<List<NodeNo>, RecordFault>
    ensures exact { FindsIfRoom result reader.new (rising_at count 0 reader.old) }
    ensures value { IfOk result (TakesRising count reader.old reader.new) }
{
    let mut nodes = List::new(alloc);
    let mut least = 0;
    for _turn in 0..count {
        let node = take_node_from(reader, least)?;
        nodes.push(NodeNo(node))?;
        least = node + 1;
    }
    Ok(nodes)
}
