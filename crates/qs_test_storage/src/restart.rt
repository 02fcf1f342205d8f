//! A log whose recovery was worked out by hand from the rules of records.
use crate::samples::{FILES, commit, prepare, put, tid};
use qs_base::{List, NodeNo, Tid};
use qs_record::Record;
use qs_restart::{OpenVote, Recovered, recover};
use std::alloc::Global;
use std::test::Fail;

// What a record says of a transaction.
#[derive(Clone, Copy)]
enum Says {
    Votes { covers: u32, text: &'static [u8] },
    Commits { told: &'static [NodeNo] },
    Aborts,
}

fn record_of(alloc: Global, tid: Tid, says: Says) -> Result<Record, Fail> {
    match says {
        Says::Votes { covers, text } => prepare(alloc, tid, covers, text),
        Says::Commits { told } => commit(alloc, tid, told),
        Says::Aborts => Ok(Record::Aborted { tid }),
    }
}

const fn votes(covers: u32, text: &'static [u8]) -> Says {
    Says::Votes { covers, text }
}

// A commit without a list, one that node 1 is to be told and whose vote was made again, an abort,
// and a vote whose outcome is not known.
fn log(alloc: Global) -> Result<List<Record>, Fail> {
    let mut log = List::new(alloc);
    for (tid, says) in [
        (tid(0, 1), votes(1, b"one")),
        (tid(0, 1), Says::Commits { told: &[] }),
        (tid(0, 2), votes(1, b"old")),
        (tid(0, 2), votes(2, b"two")),
        (tid(0, 2), Says::Commits { told: &[NodeNo(1)] }),
        (tid(0, 3), votes(1, b"three")),
        (tid(0, 3), Says::Aborts),
        (tid(1, 1), votes(4, b"four")),
    ] {
        log.push(record_of(alloc, tid, says)?)?;
    }
    Ok(log)
}

fn has_files(alloc: Global, found: &Recovered) -> Result<bool, Fail> {
    let mut files = List::new(alloc);
    files.push(put(alloc, b"one")?)?;
    files.push(put(alloc, b"two")?)?;
    Ok(found.files.as_slice() == files.as_slice() && found.audit.len() == 0)
}

fn has_outcomes(alloc: Global, found: &Recovered) -> Result<bool, Fail> {
    let mut untold = List::new(alloc);
    untold.push(commit(alloc, tid(0, 2), &[NodeNo(1)])?)?;
    Ok(
        found.committed.as_slice() == [tid(0, 1), tid(0, 2)].as_slice()
            && found.untold.as_slice() == untold.as_slice(),
    )
}

fn has_votes(alloc: Global, found: &Recovered) -> Result<bool, Fail> {
    let votes = [
        OpenVote {
            tid: tid(0, 2),
            server: FILES,
            covers: 2,
        },
        OpenVote {
            tid: tid(1, 1),
            server: FILES,
            covers: 4,
        },
    ];
    let mut in_doubt = List::new(alloc);
    in_doubt.push(prepare(alloc, tid(1, 1), 4, b"four")?)?;
    Ok(
        found.votes.as_slice() == votes.as_slice()
            && found.in_doubt.as_slice() == in_doubt.as_slice(),
    )
}

fn has_all(alloc: Global, found: &Recovered) -> Result<bool, Fail> {
    Ok(has_files(alloc, found)? && has_outcomes(alloc, found)? && has_votes(alloc, found)?)
}

#[test]
fn what_is_committed_and_what_stands_open_is_recovered(rt: HostRuntime) -> Result<(), Fail> {
    let found = recover(rt.alloc(), &log(rt.alloc())?)?;
    let is_all = has_all(rt.alloc(), &found);
    drop(found);
    assert!(rt; is_all?);
    Ok(())
}
