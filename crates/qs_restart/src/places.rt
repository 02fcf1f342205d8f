//! Where a log last says what of a transaction.
ghost use Rattle.std.specs.Prelude.{◌≡◌, [], OnOk};
ghost use Rattle.std.specs.BTreeMap.{is_at};
ghost use Rattle.std.specs.Map.{lookup};
ghost use Rattle.std.specs.Option.{option_copied};
ghost use Rattle.qs_base.specs.Order.{tid_cmp};
ghost use Rattle.qs_restart.specs.Places.{prepares_after, listed_after, ends_after, is_behind, pending_in, ballot_cmp, ballot};

use qs_base::{NoMemory, ServerNo, Tid};
use qs_record::Record;
use std::alloc::Global;
use std::collections::BTreeMap;

/// A transaction at a server.
#[derive(Clone, Copy, PartialEq, Eq, PartialOrd, Ord)]
pub(crate) struct Ballot {
    pub tid: Tid,
    pub server: ServerNo,
}

/// The places of the last votes, Commits with a list, and records that end a transaction.
#[derive(Drop)]
pub(crate) struct Places {
    pub prepares: BTreeMap<Ballot, usize>,
    pub listed: BTreeMap<Tid, usize>,
    pub ends: BTreeMap<Tid, usize>,
}

impl Places {
    /// Those of no record. It takes no memory.
    pub(crate) fn new(alloc: Global) -> Places
        ensures prepares { result.prepares.entries ≡ [] }
        ensures listed { result.listed.entries ≡ [] }
        ensures ends { result.ends.entries ≡ [] }
    {
        Places {
            prepares: BTreeMap::new(alloc),
            listed: BTreeMap::new(alloc),
            ends: BTreeMap::new(alloc),
        }
    }

    /// The record stands behind all that were noted before, at this place.
    pub(crate) fn note(&mut self, at: usize, record: &Record) -> Result<(), NoMemory>
        ensures prepares { OnOk result (self.new.prepares.entries ≡ prepares_after record.now at self.old.prepares.entries) }
        ensures listed { OnOk result (self.new.listed.entries ≡ listed_after record.now at self.old.listed.entries) }
        ensures ends { OnOk result (self.new.ends.entries ≡ ends_after record.now at self.old.ends.entries) }
    {
        match record {
            Record::Prepare { tid, server, .. } => {
                self.prepares.insert(
                    Ballot {
                        tid: *tid,
                        server: *server,
                    },
                    at,
                )?;
            }
            Record::Commit { tid, told } => {
                if told.is_empty() {
                    self.ends.insert(*tid, at)?;
                } else {
                    self.listed.insert(*tid, at)?;
                }
            }
            Record::Aborted { tid } | Record::End { tid } => {
                self.ends.insert(*tid, at)?;
            }
        }
        Ok(())
    }

    /// Whether a later vote of it was noted than the one at this place.
    pub(crate) fn has_later_vote(&self, at: usize, tid: Tid, server: ServerNo) -> bool
        ensures { result ≡ is_behind at (lookup (is_at (ballot_cmp (ballot tid server))) self.now.prepares.entries) }
    {
        is_behind(at, self.prepares.get(&Ballot { tid, server }))
    }

    /// Whether a Commit of it with a list was noted behind this place.
    pub(crate) fn is_listed_behind(&self, at: usize, tid: Tid) -> bool
        ensures { result ≡ is_behind at (lookup (is_at (tid_cmp tid)) self.now.listed.entries) }
    {
        is_behind(at, self.listed.get(&tid))
    }

    /// Whether a record that ends it was noted behind this place.
    pub(crate) fn is_ended_behind(&self, at: usize, tid: Tid) -> bool
        ensures { result ≡ is_behind at (lookup (is_at (tid_cmp tid)) self.now.ends.entries) }
    {
        is_behind(at, self.ends.get(&tid))
    }

    /// The place of the server's vote that is not ended, if there is one.
    pub(crate) fn pending(&self, tid: Tid, server: ServerNo) -> Option<usize>
        ensures { result ≡ pending_in self.now.prepares.entries self.now.ends.entries tid server }
    {
        let at = *self.prepares.get(&Ballot { tid, server })?;
        if self.is_ended_behind(at, tid) {
            None
        } else {
            Some(at)
        }
    }
}

fn is_behind(at: usize, place: Option<&usize>) -> bool
    ensures { result ≡ is_behind at (option_copied place.entry) }
{
    match place {
        Some(place) => at < *place,
        None => false,
    }
}
