//! A node of the run: its servers, what is on record, and how it starts and stops.

ghost use Rattle.std.specs.Prelude.{◌≡◌, ◌&&◌, ◌++◌, not, OnOk, OnErr, IfOk};
ghost use Rattle.std.specs.List.{list_any, filter};
ghost use Rattle.qs_base.specs.Order.{same_tid, same_bytes};
ghost use Rattle.std.specs.List.{fold};
ghost use Rattle.qs_book_machine.specs.Opening.{opened_node};
ghost use Rattle.qs_book_machine.specs.Restart.{with_vote, without_records, is_found, found_only, reopened_node, restarted_node};
ghost use Rattle.qs_book_machine.specs.Nodes.{bound_name, bound_names, is_doubt};
ghost use Rattle.qs_book_machine.specs.declared.state.OnRecord.{OnRecord};
ghost use Rattle.qs_book_machine.specs.declared.state.Voter.{Voter};

use crate::found::FoundVotes;
use crate::opening::{opened_audit, opened_commits, opened_files, opened_records};
use qs_base::{Bytes, Copied, List, NoMemory, Outcome, ServerNo, Stamp, Tid};
use qs_book_machine::{OnRecord, Opened, Reopened, Voter};
use qs_book_tables::{Table, TimerTable};
use qs_ops::servers::{AUDIT, EXTRA, FILES, NAMES, SCRATCH, TIMERS, WINDOWS};
use qs_ops::{Changes, Op, Reply, Vote};
use std::alloc::Global;
use std::collections::{BTreeMap, BTreeSet};
use std::marker::Model;
use std::mem;

/// What the machine keeps of a node of the run.
#[derive(Drop)]
pub struct BookNode {
    alloc: Global,
    up: bool,
    inc: u64,
    past: BTreeSet<u64>,
    begun: u32,
    format: u32,
    ticked: Stamp,
    stopped: u64,
    files: Table,
    audit: Table,
    names: Table,
    windows: Table,
    scratch: Table,
    timers: TimerTable,
    extra: List<Bytes>,
    records: BTreeMap<Voter, OnRecord>,
    committed: BTreeSet<Tid>,
    doubts: BTreeMap<Tid, List<Bytes>>,
}

impl Model for BookNode {
    ghost use Rattle.qs_book_machine.specs.Nodes.{NodeValue};

    ghost Value = { NodeValue };

    ghost view = { λ n. record {
      up = n.up;
      inc = n.inc;
      past = n.past.keys;
      begun = n.begun;
      format = n.format;
      ticked = n.ticked;
      stopped = n.stopped;
      files = n.files;
      audit = n.audit;
      names = n.names;
      windows = n.windows;
      scratch = n.scratch;
      timers = n.timers;
      extra = n.extra;
      records = n.records.entries;
      committed = n.committed.keys;
      doubts = n.doubts.entries;
    } };
}

impl BookNode {
    ghost use Rattle.std.specs.Prelude.{◌==◌};
    ghost use Rattle.std.specs.Map.{remove_entry};
    ghost use Rattle.std.specs.BTreeMap.{insert_entry, is_at};
    ghost use Rattle.std.specs.Option.{option_copied};
    ghost use Rattle.qs_ops.specs.Table.{released, committed};
    ghost use Rattle.qs_ops.specs.Table.{with_vote as with_ballot};
    ghost use Rattle.qs_ops.specs.Timers.{timers_ended};
    ghost use Rattle.qs_book_machine.specs.Book.{tick_node, crash_node, server_serve, vote_node, learn_node};
    ghost use Rattle.qs_book_machine.specs.Nodes.{table_of, with_table, record_of, voter, voter_cmp, pending_at, extra_of, keep_of, is_doubtful, with_doubts, crossed_node, crossed_server, crossed_names, without_doubts, without_record};

    /// The node as a run begins: up, with what its log holds.
    pub fn opened(alloc: Global, opened: &Opened) -> Result<BookNode, NoMemory>
        ensures { IfOk result (λ node. node ≡ opened_node opened.now) }
    {
        // What may fail comes first and tables last, so that few are let go where it does.
        let extra = opened.extra.copy()?;
        let records = opened_records(alloc, opened.pending.as_slice())?;
        let committed = opened_commits(alloc, opened.committed.as_slice())?;
        let files = opened_files(alloc, opened)?;
        let audit = opened_audit(alloc, opened)?;
        Ok(BookNode {
            alloc,
            up: true,
            inc: opened.inc,
            past: BTreeSet::new(alloc),
            begun: 0,
            format: opened.format,
            ticked: 0,
            stopped: 0,
            files,
            audit,
            names: Table::new(alloc),
            windows: Table::new(alloc),
            scratch: Table::new(alloc),
            timers: TimerTable::new(alloc),
            extra,
            records,
            committed,
            doubts: BTreeMap::new(alloc),
        })
    }

    /// Whether the node is up.
    pub fn is_up(&self) -> bool
        ensures { result ≡ self.now.up }
    {
        self.up
    }

    /// Its incarnation; while it is down, the one that stopped.
    pub fn inc(&self) -> u64
        ensures { result ≡ self.now.inc }
    {
        self.inc
    }

    /// Whether it had that incarnation in this run, and restarted since.
    pub fn had(&self, inc: u64) -> bool
        ensures { result ≡ list_any (λ past. past == inc) self.now.past }
    {
        self.past.contains(&inc)
    }

    /// How many transactions were begun there in its incarnation.
    pub fn begun(&self) -> u32
        ensures { result ≡ self.now.begun }
    {
        self.begun
    }

    /// The stamp of its last tick.
    pub fn ticked(&self) -> Stamp
        ensures { result ≡ self.now.ticked }
    {
        self.ticked
    }

    /// The place in the history at which it last stopped.
    pub fn stopped(&self) -> u64
        ensures { result ≡ self.now.stopped }
    {
        self.stopped
    }

    /// Its files.
    pub fn files(&self) -> &Table
        ensures { result.now ≡ self.now.files }
    {
        &self.files
    }

    /// Its audit notes.
    pub fn audit(&self) -> &Table
        ensures { result.now ≡ self.now.audit }
    {
        &self.audit
    }

    /// Its names.
    pub fn names(&self) -> &Table
        ensures { result.now ≡ self.now.names }
    {
        &self.names
    }

    /// Its timers.
    pub fn timers(&self) -> &TimerTable
        ensures { result.now ≡ self.now.timers }
    {
        &self.timers
    }

    /// The committed texts of its further server, in order.
    pub fn extra_texts(&self) -> &List<Bytes>
        ensures { result.now ≡ self.now.extra }
    {
        &self.extra
    }

    /// The table of a server; `None` where it has none.
    pub fn table(&self, server: ServerNo) -> Option<&Table>
        ensures { option_copied result ≡ table_of self.now server.0 }
    {
        match server {
            FILES => Some(&self.files),
            AUDIT => Some(&self.audit),
            NAMES => Some(&self.names),
            WINDOWS => Some(&self.windows),
            SCRATCH => Some(&self.scratch),
            _ => None,
        }
    }

    /// Bytes before each record of a batch in its log.
    pub fn extra(&self) -> u64
        ensures { result ≡ extra_of self.now.format }
    {
        if self.format == 1 { 0 } else { 8 }
    }

    /// Bytes that its log keeps free for each transaction that is not ended.
    pub fn keep(&self) -> u64
        ensures { result ≡ keep_of self.now.format }
    {
        if self.format == 1 { 128 } else { 144 }
    }

    /// What is on record of a transaction at a server.
    pub fn record(&self, tid: Tid, server: ServerNo) -> Option<&OnRecord>
        ensures { option_copied result ≡ record_of self.now tid server.0 }
    {
        self.records.get(&Voter { tid, server })
    }

    /// All that is on record.
    pub fn records(&self) -> &BTreeMap<Voter, OnRecord>
        ensures { result.now.entries ≡ self.now.records }
    {
        &self.records
    }

    /// Whether its log held the transaction's Commit at the opening.
    pub fn held_commit(&self, tid: Tid) -> bool
        ensures { result ≡ list_any (same_tid tid) self.now.committed }
    {
        self.committed.contains(&tid)
    }

    /// The changes that are pending at a server.
    pub fn pending(&self, tid: Tid, server: ServerNo) -> Result<Changes, NoMemory>
        ensures { IfOk result (λ changes. changes ≡ pending_at self.now tid server.0) }
    {
        match self.table(server) {
            Some(table) => table.changes(tid),
            None => Ok(List::new(self.alloc)),
        }
    }

    /// Whether another transaction that is crossed may have bound that name.
    pub fn is_doubtful(&self, tid: Tid, name: &Bytes) -> bool
        ensures { result ≡ is_doubtful self.now tid name.now }
    {
        self.doubts
            .iter()
            .any(|(by, names)| is_doubt(tid, name, *by, names))
    }

    // ---- what entries do

    /// So many transactions were begun in its incarnation.
    pub fn begin(&mut self, seq: u32)
        ensures { self.new ≡ record self.old { begun = seq } }
    {
        self.begun = seq;
    }

    /// The transaction holds nothing at that server's table any more.
    pub fn release(&mut self, server: ServerNo, tid: Tid)
        ensures { self.new ≡ with_table server.0 (λ table. released table tid) self.old }
    {
        match server {
            FILES => self.files.release(tid),
            AUDIT => self.audit.release(tid),
            NAMES => self.names.release(tid),
            WINDOWS => self.windows.release(tid),
            SCRATCH => self.scratch.release(tid),
            _ => {}
        }
    }

    /// The transaction's changes at that server's table are committed. After a refusal all is as it was.
    pub fn commit(&mut self, server: ServerNo, tid: Tid) -> Result<(), NoMemory>
        ensures ok { OnOk result (self.new ≡ with_table server.0 (λ table. committed table tid) self.old) }
        ensures err { OnErr result (self.new ≡ self.old) }
    {
        match server {
            FILES => self.files.commit(tid),
            AUDIT => self.audit.commit(tid),
            NAMES => self.names.commit(tid),
            WINDOWS => self.windows.commit(tid),
            SCRATCH => self.scratch.commit(tid),
            _ => Ok(()),
        }
    }

    /// Whether the transaction's last vote at that server's table is volatile. After a refusal all is as it was.
    pub fn set_vote(&mut self, server: ServerNo, tid: Tid, voted: bool) -> Result<(), NoMemory>
        ensures ok { OnOk result (self.new ≡ with_table server.0 (λ table. with_ballot table tid voted) self.old) }
        ensures err { OnErr result (self.new ≡ self.old) }
    {
        match server {
            FILES => self.files.set_vote(tid, voted),
            AUDIT => self.audit.set_vote(tid, voted),
            NAMES => self.names.set_vote(tid, voted),
            WINDOWS => self.windows.set_vote(tid, voted),
            SCRATCH => self.scratch.set_vote(tid, voted),
            _ => Ok(()),
        }
    }

    /// A server serves an operation with this reply. After a refusal all is as it was.
    pub fn serve(
        &mut self,
        server: ServerNo,
        tid: Tid,
        op: &Op,
        reply: &Reply,
    ) -> Result<(), NoMemory>
        ensures ok { OnOk result (self.new ≡ server_serve server.0 tid op.now reply.now self.old) }
        ensures err { OnErr result (self.new ≡ self.old) }
    {
        match server {
            FILES => self.files.served(tid, op, reply),
            AUDIT => self.audit.served(tid, op, reply),
            NAMES => self.names.served(tid, op, reply),
            TIMERS => self.timers.served(tid, op, reply),
            WINDOWS => self.windows.served(tid, op, reply),
            SCRATCH => self.scratch.served(tid, op, reply),
            _ => Ok(()),
        }
    }

    /// The transaction's timers are dropped.
    pub fn end(&mut self, tid: Tid)
        ensures { self.new ≡ record self.old { timers = timers_ended self.old.timers tid } }
    {
        self.timers.end(tid);
    }

    /// One tick of its timers. After a refusal all is as it was.
    pub fn tick(&mut self, stamp: Stamp) -> Result<(), NoMemory>
        ensures ok { OnOk result (self.new ≡ tick_node stamp self.old) }
        ensures err { OnErr result (self.new ≡ self.old) }
    {
        self.timers.tick()?;
        self.ticked = stamp;
        Ok(())
    }

    /// It stops, at this place in the history.
    pub fn crash(&mut self, place: u64)
        ensures { self.new ≡ crash_node place self.old }
    {
        self.up = false;
        self.stopped = place;
    }

    /// A recoverable vote goes on record. After a refusal all is as it was.
    fn put_record(
        &mut self,
        tid: Tid,
        server: ServerNo,
        covers: u32,
        pending: u64,
    ) -> Result<(), NoMemory>
        ensures ok { OnOk result (self.new ≡ record self.old { records = insert_entry voter_cmp self.old.records (voter tid server.0) (record { changes = pending_at self.old tid server.0; covers = covers; pending = pending }) }) }
        ensures err { OnErr result (self.new ≡ self.old) }
    {
        let kept = OnRecord {
            changes: self.pending(tid, server)?,
            covers,
            pending,
        };
        drop(self.records.insert(Voter { tid, server }, kept)?);
        Ok(())
    }

    /// The transaction is on record at that server no more.
    pub fn forget_record(&mut self, tid: Tid, server: ServerNo)
        ensures { self.new ≡ without_record tid server.0 self.old }
    {
        drop(self.records.remove(&Voter { tid, server }));
    }

    /// A member with so many changes pending votes. After a refusal all is as it was.
    pub fn vote(
        &mut self,
        pending: u64,
        crossed: bool,
        tid: Tid,
        server: ServerNo,
        vote: &Vote,
        covers: u32,
    ) -> Result<(), NoMemory>
        ensures ok { OnOk result (self.new ≡ vote_node pending crossed tid server.0 vote.now covers self.old) }
        ensures err { OnErr result (self.new ≡ self.old) }
    {
        match (vote, crossed) {
            (Vote::ReadOnly, _) => {
                self.release(server, tid);
                Ok(())
            }
            (Vote::Abort { .. }, false) => self.set_vote(server, tid, false),
            (Vote::Volatile, false) => self.set_vote(server, tid, true),
            (Vote::Abort { .. } | Vote::Volatile, true) => Ok(()),
            (Vote::Recoverable, _) => self.put_record(tid, server, covers, pending),
        }
    }

    /// A member learns the outcome. After a refusal all is as it was.
    pub fn learn(&mut self, outcome: Outcome, tid: Tid, server: ServerNo) -> Result<(), NoMemory>
        ensures ok { OnOk result (self.new ≡ learn_node outcome tid server.0 self.old) }
        ensures err { OnErr result (self.new ≡ self.old) }
    {
        match outcome {
            Outcome::Commit => {
                self.commit(server, tid)?;
                self.forget_record(tid, server);
            }
            Outcome::Abort => self.release(server, tid),
        }
        Ok(())
    }

    #[tactic(auto, using(std::proofs::lemmas::Map::Steps::set_value_same))]
    /// The transaction may have bound these names too. After a refusal all is as it was.
    pub fn add_doubts(&mut self, tid: Tid, names: List<Bytes>) -> Result<(), NoMemory>
        ensures ok { OnOk result (self.new ≡ with_doubts tid names self.old) }
        ensures err { OnErr result (self.new ≡ self.old) }
    {
        if let Some(known) = self.doubts.get_mut(&tid) {
            return append(self.alloc, known, names);
        }
        drop(self.doubts.insert(tid, names)?);
        Ok(())
    }

    /// From now on what the transaction holds at that server is not known, for good; while the node
    /// is down, the server stays as it stopped. After a refusal all is as it was.
    pub fn cross(&mut self, tid: Tid, server: ServerNo) -> Result<(), NoMemory>
        ensures ok { OnOk result (self.new ≡ crossed_node tid server.0 self.old) }
        ensures err { OnErr result (self.new ≡ self.old) }
    {
        if self.up {
            self.cross_server(tid, server)?;
        }
        Ok(())
    }

    fn cross_server(&mut self, tid: Tid, server: ServerNo) -> Result<(), NoMemory>
        ensures ok { OnOk result (self.new ≡ crossed_server tid server.0 self.old) }
        ensures err { OnErr result (self.new ≡ self.old) }
    {
        match server {
            NAMES => self.cross_names(tid)?,
            TIMERS => self.timers.end(tid),
            _ => self.release(server, tid),
        }
        Ok(())
    }

    fn cross_names(&mut self, tid: Tid) -> Result<(), NoMemory>
        ensures ok { OnOk result (self.new ≡ crossed_names tid self.old) }
        ensures err { OnErr result (self.new ≡ self.old) }
    {
        let changes = self.pending(tid, NAMES)?;
        let names = bound_names(self.alloc, changes.as_slice());
        drop(changes);
        self.add_doubts(tid, names?)?;
        self.release(NAMES, tid);
        Ok(())
    }

    /// No name that the transaction may have bound is in doubt any more.
    pub fn settle_doubts(&mut self, tid: Tid)
        ensures { self.new ≡ without_doubts tid self.old }
    {
        drop(self.doubts.remove(&tid));
    }

    /// A vote goes on record.
    pub fn put_vote(&mut self, voter: Voter, vote: OnRecord) -> Result<(), NoMemory>
        ensures { OnOk result (self.new ≡ with_vote self.old (voter, vote)) }
    {
        drop(self.records.insert(voter, vote)?);
        Ok(())
    }

    /// What is on record of a transaction is so no more.
    fn forget(&mut self, tid: &Tid)
        ensures { self.new ≡ without_records self.old tid.now }
    {
        self.forget_record(*tid, FILES);
        self.forget_record(*tid, AUDIT);
        self.forget_record(*tid, EXTRA);
    }

    fn reopen(&mut self, left: &Reopened) -> Result<(), NoMemory>
        ensures { OnOk result (self.new ≡ reopened_node left.now self.old) }
    {
        self.past.insert(self.inc)?;
        self.files.restart(&left.files, &left.files_kept)?;
        self.audit.restart(&left.audit, &left.audit_kept)?;
        self.up = true;
        self.inc = left.inc;
        self.begun = 0;
        self.names = Table::new(self.alloc);
        self.windows = Table::new(self.alloc);
        self.scratch = Table::new(self.alloc);
        self.timers = TimerTable::new(self.alloc);
        self.doubts = BTreeMap::new(self.alloc);
        Ok(())
    }

    /// What is on record and was not found is so no more.
    fn keep_found(&mut self, votes: &FoundVotes)
        ensures { self.new ≡ found_only votes.now self.old }
    {
        keep_found(&mut self.records, votes);
    }

    /// It is up in a new incarnation: found commits are applied, found votes are pending again, and
    /// what is volatile, or was lost with its log's end, is gone.
    pub fn restart(
        &mut self,
        left: &Reopened,
        votes: &FoundVotes,
        done: &[Tid],
    ) -> Result<(), NoMemory>
        ensures { OnOk result (self.new ≡ restarted_node left.now votes.now done.now self.old) }
    {
        forget_all(self, done);
        self.keep_found(votes);
        self.reopen(left)
    }
}

fn forget_all(node: &mut BookNode, done: &[Tid])
    ensures { node.new ≡ fold without_records node.old done.now }
{
    for tid in done {
        node.forget(tid);
    }
}

/// The records of those votes that were found.
fn keep_found(records: &mut BTreeMap<Voter, OnRecord>, votes: &FoundVotes)
    ensures { records.new.entries ≡ filter (λ (entry : Voter × OnRecord). is_found votes.now entry.0) records.old.entries }
{
    records.retain(|voter, _| votes.finds(*voter));
}

fn is_doubt(tid: Tid, name: &Bytes, by: Tid, names: &List<Bytes>) -> bool
    ensures { result ≡ is_doubt tid name.now (by, names.now) }
{
    by != tid && has_name(names, name)
}

fn has_name(names: &List<Bytes>, name: &Bytes) -> bool
    ensures { result ≡ list_any (same_bytes name.now) names.now }
{
    names
        .as_slice()
        .iter()
        .any(|other| name.as_slice() == other.as_slice())
}

/// Adds names at the end of others. After a refusal they are as they were.
fn append(alloc: Global, names: &mut List<Bytes>, more: List<Bytes>) -> Result<(), NoMemory>
    ensures ok { OnOk result (names.new ≡ names.old ++ more) }
    ensures err { OnErr result (names.new ≡ names.old) }
{
    let mut items = mem::replace(names, List::new(alloc)).into_vec();
    let appended = items.append(&mut more.into_vec());
    *names = List::from_vec(items);
    match appended {
        Ok(()) => Ok(()),
        Err(_) => Err(NoMemory),
    }
}

/// The names that these operations bind.
pub fn bound_names(alloc: Global, ops: &[Op]) -> Result<List<Bytes>, NoMemory>
    ensures { IfOk result (λ names. names ≡ bound_names ops.now) }
{
    let mut names = List::new(alloc);
    for op in ops {
        add_bound_name(&mut names, op)?;
    }
    Ok(names)
}

fn add_bound_name(names: &mut List<Bytes>, op: &Op) -> Result<(), NoMemory>
    ensures { OnOk result (names.new ≡ names.old ++ bound_name op.now) }
{
    if let Op::Bind { name, .. } = op {
        names.push(name.copy()?)?;
    }
    Ok(())
}
