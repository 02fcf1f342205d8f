//! Journals that are merged, in an order that was worked out by hand.
use crate::samples::tid;
use qs_base::{Bytes, ClientNo, List, NoMemory, NodeNo, Stamp};
use qs_book_journal::{Act, Entry, merge};
use std::alloc::Global;
use std::test::Fail;

/// Entries of these nodes with these stamps: each begins the transaction of its number.
fn journal_of(alloc: Global, begun: &[(u8, Stamp, u32)]) -> Result<List<Entry>, NoMemory> {
    let mut journal = List::new(alloc);
    for (node, stamp, seq) in begun {
        let act = Act::Begin {
            tid: tid(*seq),
            label: Bytes::from_slice(alloc, b"a")?,
            client: ClientNo(0),
        };
        journal.push(Entry {
            stamp: *stamp,
            node: NodeNo(*node),
            act,
        })?;
    }
    Ok(journal)
}

const MERGED: [(u8, Stamp, u32); 5] = [(0, 1, 4), (0, 1, 3), (1, 1, 1), (1, 2, 2), (0, 3, 5)];

fn journals_of(alloc: Global) -> Result<List<List<Entry>>, NoMemory> {
    let mut journals = List::new(alloc);
    journals.push(journal_of(alloc, &[(1, 1, 1), (1, 2, 2)])?)?;
    journals.push(journal_of(alloc, &[(0, 1, 4), (0, 1, 3), (0, 3, 5)])?)?;
    Ok(journals)
}

fn is_entry(entry: &Entry, node: u8, stamp: Stamp, seq: u32) -> bool {
    entry.node == NodeNo(node)
        && entry.stamp == stamp
        && matches!(&entry.act, Act::Begin { tid: begun, .. } if *begun == tid(seq))
}

fn are_merged(entries: &[Entry]) -> bool {
    entries.len() == MERGED.len()
        && entries.iter().zip(MERGED.iter()).all(|(entry, (node, stamp, seq))| is_entry(
            entry, *node, *stamp, *seq,
        ))
}

#[test]
fn journals_are_merged_by_stamp_then_node(rt: HostRuntime) -> Result<(), Fail> {
    let merged = merge(rt.alloc(), &journals_of(rt.alloc())?)?;
    assert!(rt; are_merged(merged.as_slice()));
    Ok(())
}
