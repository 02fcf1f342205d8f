//! The machine as a run begins, from what the logs of its nodes hold.
ghost use Rattle.std.specs.Prelude.{◌≡◌, ◌++◌, [], IfOk, OnOk, map, replicate};
ghost use Rattle.std.specs.List.{flat_map, fold};
ghost use Rattle.qs_ops.specs.Table.{no_table, restarted};
ghost use Rattle.qs_book_machine.specs.Opening.{keep_pending, put_of, note_of, put_record, put_tid, opened_node, no_owner};

use crate::node::BookNode;
use qs_base::{Bytes, Copied, List, NoMemory, ServerNo, Tid};
use qs_book_machine::{Causes, OnRecord, Opened, Owner, Pending, Voter};
use qs_book_tables::Table;
use qs_ops::servers::{AUDIT, FILES};
use qs_ops::{File, KeptChanges, Op};
use std::alloc::Global;
use std::collections::{BTreeMap, BTreeSet};

/// The nodes of a run, each as its log has it.
pub fn opened_nodes(alloc: Global, opened: &[Opened]) -> Result<Vec<BookNode>, NoMemory>
    ensures { IfOk result (λ nodes. nodes.items ≡ map opened_node opened.now) }
{
    let mut nodes = Vec::new(alloc);
    for one in opened {
        nodes.push(BookNode::opened(alloc, one)?)?;
    }
    Ok(nodes)
}

/// One record for each number that a client may have, of which nothing is known.
pub fn no_owners(alloc: Global) -> Result<Vec<Owner>, NoMemory>
    ensures { IfOk result (λ owners. owners.items ≡ replicate 256 no_owner) }
{
    let mut owners = Vec::new(alloc);
    for _turn in 0..256u32 {
        owners.push(Owner {
            line: 0,
            committed: false,
            causes: Causes::new(alloc),
            waiting: List::new(alloc),
        })?;
    }
    Ok(owners)
}

/// The files of a log, with the votes of files that it holds.
pub fn opened_files(alloc: Global, opened: &Opened) -> Result<Table, NoMemory>
    ensures { IfOk result (λ table. table ≡ (opened_node opened.now).files) }
{
    let puts = puts_of(alloc, opened.files.as_slice())?;
    let table = opened_table(alloc, &puts, FILES, opened.pending.as_slice());
    drop(puts);
    table
}

/// The audit notes of a log, with the votes of audit that it holds.
pub fn opened_audit(alloc: Global, opened: &Opened) -> Result<Table, NoMemory>
    ensures { IfOk result (λ table. table ≡ (opened_node opened.now).audit) }
{
    let notes = notes_of(alloc, opened.audit.as_slice())?;
    let table = opened_table(alloc, &notes, AUDIT, opened.pending.as_slice());
    drop(notes);
    table
}

fn opened_table(
    alloc: Global,
    changes: &List<Op>,
    server: ServerNo,
    pending: &[Pending],
) -> Result<Table, NoMemory>
    ensures { IfOk result (λ table. table ≡ restarted no_table changes.now (flat_map (keep_pending server.0) pending.now)) }
{
    let keeps = keeps_of(alloc, server, pending)?;
    let mut table = Table::new(alloc);
    let taken = table.restart(changes, &keeps);
    drop(keeps);
    match taken {
        Ok(()) => Ok(table),
        Err(refused) => {
            drop(table);
            Err(refused)
        }
    }
}

fn puts_of(alloc: Global, files: &[File]) -> Result<List<Op>, NoMemory>
    ensures { IfOk result (λ puts. puts ≡ map put_of files.now) }
{
    let mut puts = List::new(alloc);
    for file in files {
        puts.push(Op::Put {
            name: file.name.copy()?,
            text: file.content.copy()?,
        })?;
    }
    Ok(puts)
}

fn notes_of(alloc: Global, texts: &[Bytes]) -> Result<List<Op>, NoMemory>
    ensures { IfOk result (λ notes. notes ≡ map note_of texts.now) }
{
    let mut notes = List::new(alloc);
    for text in texts {
        notes.push(Op::Note { text: text.copy()? })?;
    }
    Ok(notes)
}

fn keeps_of(
    alloc: Global,
    server: ServerNo,
    pending: &[Pending],
) -> Result<List<KeptChanges>, NoMemory>
    ensures { IfOk result (λ keeps. keeps ≡ flat_map (keep_pending server.0) pending.now) }
{
    let mut keeps = List::new(alloc);
    for vote in pending {
        add_keep(&mut keeps, server, vote)?;
    }
    Ok(keeps)
}

fn add_keep(keeps: &mut List<KeptChanges>, server: ServerNo, vote: &Pending) -> Result<(), NoMemory>
    ensures { OnOk result (keeps.new ≡ keeps.old ++ keep_pending server.0 vote.now) }
{
    if vote.server == server {
        keeps.push(KeptChanges {
            tid: vote.tid,
            changes: vote.changes.copy()?,
        })?;
    }
    Ok(())
}

/// What is on record as a log holds it.
pub fn opened_records(
    alloc: Global,
    pending: &[Pending],
) -> Result<BTreeMap<Voter, OnRecord>, NoMemory>
    ensures { IfOk result (λ records. records.entries ≡ fold put_record [] pending.now) }
{
    let mut records = BTreeMap::new(alloc);
    for vote in pending {
        add_record(&mut records, vote)?;
    }
    Ok(records)
}

fn add_record(records: &mut BTreeMap<Voter, OnRecord>, vote: &Pending) -> Result<(), NoMemory>
    ensures { OnOk result (records.new.entries ≡ put_record records.old.entries vote.now) }
{
    let voter = Voter {
        tid: vote.tid,
        server: vote.server,
    };
    let kept = OnRecord {
        changes: vote.changes.copy()?,
        covers: vote.covers,
        pending: vote.changes.len() as u64,
    };
    drop(records.insert(voter, kept)?);
    Ok(())
}

/// The transactions of the Commits of a log.
pub fn opened_commits(alloc: Global, committed: &[Tid]) -> Result<BTreeSet<Tid>, NoMemory>
    ensures { IfOk result (λ tids. tids.keys ≡ fold put_tid [] committed.now) }
{
    let mut tids = BTreeSet::new(alloc);
    for tid in committed {
        add_tid(&mut tids, tid)?;
    }
    Ok(tids)
}

fn add_tid(tids: &mut BTreeSet<Tid>, tid: &Tid) -> Result<(), NoMemory>
    ensures { OnOk result (tids.new.keys ≡ put_tid tids.old.keys tid.now) }
{
    tids.insert(*tid)?;
    Ok(())
}
