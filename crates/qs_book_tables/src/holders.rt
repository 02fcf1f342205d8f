//! An index from names to the transactions that hold them.
ghost use Rattle.std.specs.Prelude.{◌≡◌, [], Bool, not, IfOk, OnOk, OnErr};
ghost use Rattle.std.specs.Bool.{OnFalse};
ghost use Rattle.std.specs.List.{list_any};
ghost use Rattle.std.specs.Option.{option_copied};
ghost use Rattle.qs_base.specs.Order.{same_bytes, same_tid};
ghost use Rattle.qs_book_tables.specs.Index.{tids_of, holders_of, with_tid, without_tid, first_other, ChangesHolders, SameHolders};

use qs_base::{Bytes, Copied, NoMemory, Tid};
use std::alloc::Global;
use std::collections::{BTreeMap, BTreeSet};

/// Who holds which name. A name that nobody holds takes no room.
#[derive(Drop)]
pub struct Holders {
    names: BTreeMap<Bytes, BTreeSet<Tid>>,
    alloc: Global,
}

impl Holders {
    /// Nobody holds anything. It takes no memory.
    pub fn new(alloc: Global) -> Holders
        ensures { result.names.entries ≡ [] }
    {
        Holders {
            names: BTreeMap::new(alloc),
            alloc,
        }
    }

    /// The transactions that hold the name, in order; `None` where nobody does.
    pub fn tids(&self, name: &Bytes) -> Option<&BTreeSet<Tid>>
        ensures { tids_of (option_copied result) ≡ holders_of self.now.names.entries name.now }
    {
        self.names.get(name)
    }

    /// The least transaction but this one that holds the name.
    pub fn other(&self, name: &Bytes, tid: Tid) -> Option<Tid>
        ensures { result ≡ first_other tid (holders_of self.now.names.entries name.now) }
    {
        match self.names.get(name) {
            Some(tids) => first_other(tids, tid),
            None => None,
        }
    }

    /// The transaction holds the name from now on; `true` where it did not before. After a refusal
    /// everybody holds what they did.
    pub fn add(&mut self, name: &Bytes, tid: Tid) -> Result<bool, NoMemory>
        ensures ok { OnOk result (ChangesHolders (same_bytes name.now) (with_tid tid) self.old.names.entries self.new.names.entries) }
        ensures fresh { IfOk result (λ fresh. fresh ≡ not (list_any (same_tid tid) (holders_of self.old.names.entries name.now))) }
        ensures held { IfOk result (λ fresh. OnFalse fresh (SameHolders self.old.names.entries self.new.names.entries)) }
        ensures err { OnErr result (SameHolders self.old.names.entries self.new.names.entries) }
    {
        match self.names.get_mut(name) {
            Some(tids) => Ok(tids.insert(tid)?),
            None => {
                let mut tids = BTreeSet::new(self.alloc);
                tids.insert(tid)?;
                self.names.insert(name.copy()?, tids)?;
                Ok(true)
            }
        }
    }

    /// The transaction does not hold the name any more. It takes no memory.
    pub fn remove(&mut self, name: &Bytes, tid: Tid)
        ensures { ChangesHolders (same_bytes name.now) (without_tid tid) self.old.names.entries self.new.names.entries }
    {
        let Some(tids) = self.names.get_mut(name) else {
            return;
        };
        tids.remove(&tid);
        if tids.is_empty() {
            self.names.remove(name);
        }
    }
}

/// The least of these transactions but one.
fn first_other(tids: &BTreeSet<Tid>, tid: Tid) -> Option<Tid>
    ensures { result ≡ first_other tid tids.now.keys }
{
    for held in tids {
        if *held != tid {
            return Some(*held);
        }
    }
    None
}
