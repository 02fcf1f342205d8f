//! Recovery: one pass for what is committed, and one for what stands open.
ghost use Rattle.std.specs.Prelude.{◌≡◌, ◌≤◌, ◌++◌, [], length, IfOk, OnOk};
ghost use Rattle.std.specs.Option.{option_copied};
ghost use Rattle.std.specs.Option.{option_copied};
ghost use Rattle.qs_restart.specs.Recovery.{recovery, open_votes, in_doubt, untold, names_transaction, files_no, audit_no, extra_no};
ghost use Rattle.qs_restart.specs.Places.{Follows, changes_in, changes_of, committed_at, committed_by, votes_of, doubts_of, untold_of, is_open_vote, is_open_commit};

use crate::places::Places;
use crate::recovered::{OpenVote, Recovered};
use qs_base::{Copied, List, NoMemory, ServerNo, Tid};
use qs_ops::servers::{AUDIT, EXTRA, FILES};
use qs_ops::{Changes, Op};
use qs_record::Record;
use std::alloc::Global;

/// What the log of these records says: the committed changes of each server, the votes that stand
/// open, the Commits that have still to be told, and the transactions of all Commits, each list in
/// log order. The only error is a refusal of memory.
///
/// The time grows as n log n in the log.
pub fn recover(alloc: Global, records: &List<Record>) -> Result<Recovered, NoMemory>
    ensures files { IfOk result (λ found. found.files ≡ (recovery records.now).files) }
    ensures audit { IfOk result (λ found. found.audit ≡ (recovery records.now).audit) }
    ensures extra { IfOk result (λ found. found.extra ≡ (recovery records.now).extra) }
    ensures votes { IfOk result (λ found. found.votes ≡ open_votes (recovery records.now)) }
    ensures in_doubt { IfOk result (λ found. found.in_doubt ≡ in_doubt (recovery records.now)) }
    ensures untold { IfOk result (λ found. found.untold ≡ untold (recovery records.now)) }
    ensures committed { IfOk result (λ found. found.committed ≡ (recovery records.now).committed) }
{
    let mut found = Recovered {
        files: List::new(alloc),
        audit: List::new(alloc),
        extra: List::new(alloc),
        votes: List::new(alloc),
        in_doubt: List::new(alloc),
        untold: List::new(alloc),
        committed: List::new(alloc),
    };
    let places = take_commits(alloc, records.as_slice(), &mut found)?;
    take_open(records.as_slice(), &places, &mut found)?;
    Ok(found)
}

/// What each Commit commits, and the places of all records.
fn take_commits(
    alloc: Global,
    records: &[Record],
    found: &mut Recovered,
) -> Result<Places, NoMemory>
    requires files { found.old.files ≡ [] }
    requires audit { found.old.audit ≡ [] }
    requires extra { found.old.extra ≡ [] }
    requires committed { found.old.committed ≡ [] }
    ensures files { OnOk result (found.new.files ≡ (recovery records.now).files) }
    ensures audit { OnOk result (found.new.audit ≡ (recovery records.now).audit) }
    ensures extra { OnOk result (found.new.extra ≡ (recovery records.now).extra) }
    ensures committed { OnOk result (found.new.committed ≡ (recovery records.now).committed) }
    ensures votes { found.new.votes ≡ found.old.votes }
    ensures in_doubt { found.new.in_doubt ≡ found.old.in_doubt }
    ensures untold { found.new.untold ≡ found.old.untold }
    ensures places { IfOk result (λ places. Follows places.prepares.entries places.listed.entries places.ends.entries records.now) }
{
    let mut places = Places::new(alloc);
    for (at, record) in records.iter().enumerate() {
        take_if_commit(records, &places, record, found)?;
        places.note(at, record)?;
    }
    Ok(places)
}

/// What the record commits at each server, where it is a Commit.
fn take_if_commit(
    records: &[Record],
    places: &Places,
    record: &Record,
    found: &mut Recovered,
) -> Result<(), NoMemory>
    ensures files { OnOk result (found.new.files ≡ found.old.files ++ committed_at files_no record.now records.now places.now.prepares.entries places.now.ends.entries) }
    ensures audit { OnOk result (found.new.audit ≡ found.old.audit ++ committed_at audit_no record.now records.now places.now.prepares.entries places.now.ends.entries) }
    ensures extra { OnOk result (found.new.extra ≡ found.old.extra ++ committed_at extra_no record.now records.now places.now.prepares.entries places.now.ends.entries) }
    ensures committed { OnOk result (found.new.committed ≡ found.old.committed ++ committed_by record.now) }
    ensures votes { found.new.votes ≡ found.old.votes }
    ensures in_doubt { found.new.in_doubt ≡ found.old.in_doubt }
    ensures untold { found.new.untold ≡ found.old.untold }
{
    let Record::Commit { tid, .. } = record else {
        return Ok(());
    };
    add_changes(records, places.pending(*tid, FILES), &mut found.files)?;
    add_changes(records, places.pending(*tid, AUDIT), &mut found.audit)?;
    add_changes(records, places.pending(*tid, EXTRA), &mut found.extra)?;
    if names_transaction(*tid) {
        found.committed.push(*tid)?;
    }
    Ok(())
}

/// Adds the changes of the vote at this place.
fn add_changes(
    records: &[Record],
    place: Option<usize>,
    changes: &mut Changes,
) -> Result<(), NoMemory>
    ensures { OnOk result (changes.new ≡ changes.old ++ changes_in records.now place) }
{
    match place {
        Some(at) => add_changes_of(records.get(at), changes),
        None => Ok(()),
    }
}

fn add_changes_of(record: Option<&Record>, changes: &mut Changes) -> Result<(), NoMemory>
    ensures { OnOk result (changes.new ≡ changes.old ++ changes_of (option_copied record.entry)) }
{
    match record {
        Some(Record::Prepare { changes: more, .. }) => add_each(more.as_slice(), changes),
        _ => Ok(()),
    }
}

fn add_each(more: &[Op], changes: &mut Changes) -> Result<(), NoMemory>
    ensures { OnOk result (changes.new ≡ changes.old ++ more.now) }
{
    for change in more {
        changes.push(change.copy()?)?;
    }
    Ok(())
}

/// Whether the identifier is a transaction's: number 0 is the state of the node.
fn names_transaction(tid: Tid) -> bool
    ensures { result ≡ names_transaction tid }
{
    tid.seq > 0
}

/// The votes and Commits that stand open.
fn take_open(records: &[Record], places: &Places, found: &mut Recovered) -> Result<(), NoMemory>
    requires places { Follows places.now.prepares.entries places.now.listed.entries places.now.ends.entries records.now }
    requires votes { found.old.votes ≡ [] }
    requires in_doubt { found.old.in_doubt ≡ [] }
    requires untold { found.old.untold ≡ [] }
    ensures votes { OnOk result (found.new.votes ≡ open_votes (recovery records.now)) }
    ensures in_doubt { OnOk result (found.new.in_doubt ≡ in_doubt (recovery records.now)) }
    ensures untold { OnOk result (found.new.untold ≡ untold (recovery records.now)) }
    ensures files { found.new.files ≡ found.old.files }
    ensures audit { found.new.audit ≡ found.old.audit }
    ensures extra { found.new.extra ≡ found.old.extra }
    ensures committed { found.new.committed ≡ found.old.committed }
{
    for (at, record) in records.iter().enumerate() {
        take_if_open(at, record, places, found)?;
    }
    Ok(())
}

/// One of them, where it stands open.
fn take_if_open(
    at: usize,
    record: &Record,
    places: &Places,
    found: &mut Recovered,
) -> Result<(), NoMemory>
    ensures votes { OnOk result (found.new.votes ≡ found.old.votes ++ votes_of record.now at places.now.prepares.entries places.now.ends.entries) }
    ensures in_doubt { OnOk result (found.new.in_doubt ≡ found.old.in_doubt ++ doubts_of record.now at places.now.prepares.entries places.now.listed.entries places.now.ends.entries) }
    ensures untold { OnOk result (found.new.untold ≡ found.old.untold ++ untold_of record.now at places.now.ends.entries) }
    ensures files { found.new.files ≡ found.old.files }
    ensures audit { found.new.audit ≡ found.old.audit }
    ensures extra { found.new.extra ≡ found.old.extra }
    ensures committed { found.new.committed ≡ found.old.committed }
{
    match record {
        Record::Prepare {
            tid,
            server,
            covers,
            ..
        } => {
            if !is_open_vote(at, *tid, *server, places) {
                return Ok(());
            }
            found.votes.push(OpenVote {
                tid: *tid,
                server: *server,
                covers: *covers,
            })?;
            if !places.is_listed_behind(at, *tid) {
                found.in_doubt.push(record.copy()?)?;
            }
        }
        Record::Commit { tid, told } => {
            if is_open_commit(at, *tid, told.is_empty(), places) {
                found.untold.push(record.copy()?)?;
            }
        }
        Record::Aborted { .. } | Record::End { .. } => {}
    }
    Ok(())
}

fn is_open_vote(at: usize, tid: Tid, server: ServerNo, places: &Places) -> bool
    ensures { result ≡ is_open_vote at tid server places.now.prepares.entries places.now.ends.entries }
{
    names_transaction(tid)
        && !places.has_later_vote(at, tid, server)
        && !places.is_ended_behind(at, tid)
}

fn is_open_commit(at: usize, tid: Tid, no_list: bool, places: &Places) -> bool
    ensures { result ≡ is_open_commit at tid no_list places.now.ends.entries }
{
    names_transaction(tid) && !no_list && !places.is_ended_behind(at, tid)
}
