//! Transactions, operations and records that several tests take.
use qs_base::{Bytes, List, NodeNo, ServerNo, Tid, copy_list};
use qs_ops::Op;
use qs_record::Record;
use std::alloc::Global;
use std::test::Fail;

pub(crate) const FILES: ServerNo = ServerNo(0);

/// The first transaction of node 0.
pub(crate) const TID: Tid = Tid {
    home: NodeNo(0),
    inc: 1,
    seq: 1,
};

pub(crate) const fn tid(home: u8, seq: u32) -> Tid {
    Tid {
        home: NodeNo(home),
        inc: 1,
        seq,
    }
}

/// The bytes of a Prepare at server 0 for request 1 of `TID`, with the one change Put "f" "hello".
pub(crate) const PREPARE: [u8; 38] = [
    1, 0, 0, 0, 0, 0, 0, 0, 0, 1, 0, 0, 0, 1, 0, 0, 0, 0, 1, 0, 0, 0, 1, 1, 0, 0, 0, 1, 0x66, 0, 0,
    0, 5, 0x68, 0x65, 0x6c, 0x6c, 0x6f,
];

/// The bytes of the Commit of `TID` that tells nobody.
pub(crate) const COMMIT: [u8; 15] = [2, 0, 0, 0, 0, 0, 0, 0, 0, 1, 0, 0, 0, 1, 0];

/// A put under "f".
pub(crate) fn put(alloc: Global, text: &[u8]) -> Result<Op, Fail> {
    Ok(Op::Put {
        name: Bytes::from_slice(alloc, b"f")?,
        text: Bytes::from_slice(alloc, text)?,
    })
}

pub(crate) fn prepare(alloc: Global, tid: Tid, covers: u32, text: &[u8]) -> Result<Record, Fail> {
    let mut changes = List::new(alloc);
    changes.push(put(alloc, text)?)?;
    Ok(Record::Prepare {
        tid,
        server: FILES,
        covers,
        changes,
    })
}

pub(crate) fn commit(alloc: Global, tid: Tid, told: &[NodeNo]) -> Result<Record, Fail> {
    Ok(Record::Commit {
        tid,
        told: copy_list(alloc, told)?,
    })
}
