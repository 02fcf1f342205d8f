//! Records, operations and lists of nodes whose bytes were worked out by hand, both ways, and each
//! fault at its place.
ghost use Rattle.std.specs.Prelude.{IfOk};
ghost use Rattle.qs_record.specs.Grammar.{AreNodes};

use crate::samples::{COMMIT, PREPARE, TID, commit, prepare};
use qs_base::{Bytes, ClientNo, List, Member, NodeNo, ServerNo};
use qs_codec::{CodecFault, Reader};
use qs_ops::Op;
use qs_record::{
    Record, RecordFault, decode, decode_op, encode, encode_op, length, put_member, put_nodes,
    put_tid, read_member, read_nodes, read_tid,
};
use std::alloc::Global;
use std::test::Fail;

#[test]
fn records_go_both_ways(rt: HostRuntime) -> Result<(), Fail> {
    let prepare = prepare(rt.alloc(), TID, 1, b"hello")?;
    let is_prepare = is_spelled_so(rt.alloc(), &prepare, &PREPARE);
    drop(prepare);
    assert!(rt; is_prepare?);
    let commit = commit(rt.alloc(), TID, &[])?;
    let is_commit = is_spelled_so(rt.alloc(), &commit, &COMMIT);
    drop(commit);
    assert!(rt; is_commit?);
    Ok(())
}

// Whether these are the record's bytes, both ways.
#[tactic(auto, using(qs_record::proofs::Fronts::record_valid))]
fn is_spelled_so(alloc: Global, rec: &Record, bytes: &[u8]) -> Result<bool, Fail> {
    let mut reader = Reader::new(bytes);
    let read = decode(alloc, &mut reader)?;
    let mut out = List::new(alloc);
    let written = encode(&read, &mut out);
    let is_read = read == *rec && length(&read) == bytes.len() as u64;
    drop(read);
    written?;
    Ok(is_read && reader.left() == 0 && out.as_slice() == bytes)
}

/// The operation with this tag, of name `a`, text `bc`, 258 ticks, client 3 and code 7.
fn op_of(alloc: Global, tag: u8) -> Result<Op, Fail> {
    let name = Bytes::from_slice(alloc, b"a")?;
    let text = Bytes::from_slice(alloc, b"bc")?;
    Ok(match tag {
        1 => Op::Put { name, text },
        2 => Op::Append { name, text },
        3 => Op::Del { name },
        4 => Op::Get { name },
        5 => Op::Listing,
        6 => Op::Note { text },
        7 => Op::Notes,
        8 => Op::Bind { name, text },
        9 => Op::Find { name },
        10 => Op::Timer { name, ticks: 258 },
        11 => Op::Left { name },
        12 => Op::Window { name, text },
        13 => Op::Title { name },
        14 => Op::Keep { name, text },
        15 => Op::Fetch { name },
        16 => Op::Lend {
            client: ClientNo(3),
        },
        _ => Op::Extra { code: 7, text },
    })
}

/// Tags, and the bytes of their operations.
const OPERATIONS: [(u8, &[u8]); 17] = [
    (1, b"\x01\0\0\0\x01a\0\0\0\x02bc"),
    (2, b"\x02\0\0\0\x01a\0\0\0\x02bc"),
    (3, b"\x03\0\0\0\x01a"),
    (4, b"\x04\0\0\0\x01a"),
    (5, b"\x05"),
    (6, b"\x06\0\0\0\x02bc"),
    (7, b"\x07"),
    (8, b"\x08\0\0\0\x01a\0\0\0\x02bc"),
    (9, b"\x09\0\0\0\x01a"),
    (10, b"\x0a\0\0\0\x01a\0\0\x01\x02"),
    (11, b"\x0b\0\0\0\x01a"),
    (12, b"\x0c\0\0\0\x01a\0\0\0\x02bc"),
    (13, b"\x0d\0\0\0\x01a"),
    (14, b"\x0e\0\0\0\x01a\0\0\0\x02bc"),
    (15, b"\x0f\0\0\0\x01a"),
    (16, b"\x10\x03"),
    (17, b"\x11\0\0\0\x07\0\0\0\x02bc"),
];

#[test]
fn operations_go_both_ways(rt: HostRuntime) -> Result<(), Fail> {
    for (tag, bytes) in OPERATIONS.iter() {
        assert!(rt; goes_both_ways(rt.alloc(), *tag, bytes)?);
    }
    Ok(())
}

// Whether these are the bytes of the operation with this tag, both ways.
fn goes_both_ways(alloc: Global, tag: u8, bytes: &[u8]) -> Result<bool, Fail> {
    let op = op_of(alloc, tag)?;
    let is_spelled = is_spelled(alloc, &op, bytes);
    drop(op);
    is_spelled
}

// Whether these are the operation's bytes, both ways.
fn is_spelled(alloc: Global, op: &Op, bytes: &[u8]) -> Result<bool, Fail> {
    let mut reader = Reader::new(bytes);
    let read = decode_op(alloc, &mut reader)?;
    let mut out = List::new(alloc);
    let written = encode_op(&read, &mut out);
    let is_read = read == *op;
    drop(read);
    written?;
    Ok(is_read && reader.left() == 0 && out.as_slice() == bytes)
}

/// `TID`, server 95 of node 15, and nodes 3 and 15.
const SMALL: [u8; 18] = [0, 0, 0, 0, 0, 0, 0, 0, 1, 0, 0, 0, 1, 15, 95, 2, 3, 15];

const MEMBER: Member = Member {
    node: NodeNo(15),
    server: ServerNo(95),
};

fn small_nodes(alloc: Global) -> Result<List<NodeNo>, Fail>
    ensures { IfOk result AreNodes }
{
    let mut nodes = List::new(alloc);
    nodes.push(NodeNo(3))?;
    nodes.push(NodeNo(15))?;
    Ok(nodes)
}

fn put_small(out: &mut List<u8>, nodes: &List<NodeNo>) -> Result<(), Fail>
    requires { AreNodes nodes.now }
{
    put_tid(out, TID)?;
    put_member(out, MEMBER)?;
    put_nodes(out, nodes)?;
    Ok(())
}

fn is_small(alloc: Global, nodes: &List<NodeNo>) -> Result<bool, Fail> {
    let mut reader = Reader::new(&SMALL);
    let is_head = read_tid(&mut reader)? == TID && read_member(&mut reader)? == MEMBER;
    Ok(is_head && read_nodes(alloc, &mut reader)? == *nodes && reader.left() == 0)
}

#[test]
fn small_values_go_both_ways(rt: HostRuntime) -> Result<(), Fail> {
    let nodes = small_nodes(rt.alloc())?;
    assert!(rt; is_small(rt.alloc(), &nodes)?);
    let mut out = List::new(rt.alloc());
    put_small(&mut out, &nodes)?;
    assert!(rt; out.as_slice() == SMALL.as_slice());
    Ok(())
}

/// The first bytes of the Prepare, so many, with one byte changed.
#[test]
fn records_are_refused_at_their_first_fault(rt: HostRuntime) -> Result<(), Fail> {
    for (len, at, byte, fault) in [
        (37, 0, 1, CodecFault::Short { at: 33, need: 5 }),
        (1, 0, 9, CodecFault::BadTag { at: 0, tag: 9 }),
        (38, 23, 4, CodecFault::BadTag { at: 23, tag: 4 }),
        (38, 14, 7, CodecFault::BadTag { at: 14, tag: 7 }),
        (38, 22, 16, CodecFault::Short { at: 19, need: 16 }),
    ] {
        assert!(rt; len <= 38 && at < 38);
        let mut bytes = PREPARE;
        bytes[at] = byte;
        let mut reader = Reader::new(&bytes[..len]);
        let refused = decode(rt.alloc(), &mut reader).err();
        assert!(rt; refused == Some(RecordFault::Codec { fault }));
        assert!(rt; reader.left() == len);
    }
    Ok(())
}

#[test]
fn nodes_that_do_not_rise_are_refused(rt: HostRuntime) -> Result<(), Fail> {
    for (nodes, at, tag) in [([2, 1, 1], 2, 1), ([2, 2, 1], 2, 1), ([2, 16, 17], 1, 16)] {
        let mut reader = Reader::new(&nodes);
        let fault = CodecFault::BadTag { at, tag };
        assert!(rt; read_nodes(rt.alloc(), &mut reader) == Err(RecordFault::Codec { fault }));
        assert!(rt; reader.left() == 3);
    }
    Ok(())
}
