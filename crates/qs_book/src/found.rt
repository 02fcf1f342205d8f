//! The lists that a restart finds, each with what it takes to look something up in it.
ghost use Rattle.std.specs.Prelude.{◌≡◌, IfOk, OnOk, cond, true, Some};
ghost use Rattle.std.specs.List.{list_any};
ghost use Rattle.std.specs.Map.{lookup};
ghost use Rattle.std.specs.BTreeMap.{is_at};
ghost use Rattle.qs_base.specs.Order.{tid_cmp};
ghost use Rattle.qs_base.specs.declared.identifiers.Tid.{Tid};
ghost use Rattle.qs_book_machine.specs.Nodes.{voter_cmp};
ghost use Rattle.qs_book_machine.specs.Restart.{is_among, is_found, is_found_as, voter_of};
ghost use Rattle.qs_book_machine.specs.declared.state.Voter.{Voter};
ghost use Rattle.qs_book.specs.Found.{is_within, greater_covers};

use qs_base::{NoMemory, Tid};
use qs_book_journal::Found;
use qs_book_machine::Voter;
use std::alloc::Global;
use std::collections::{BTreeMap, BTreeSet};
use std::marker::Model;

/// The transactions whose Commits a restart finds, in order. To find one takes one look-up.
#[derive(Drop)]
pub struct FoundCommits {
    items: Vec<Tid>,
    set: BTreeSet<Tid>,
}

impl Model for FoundCommits {
    ghost use Rattle.std.specs.Prelude.{◌≡◌, List};
    ghost use Rattle.std.specs.List.{list_any};
    ghost use Rattle.std.specs.BTreeMap.{is_at};
    ghost use Rattle.qs_base.specs.Order.{tid_cmp};
    ghost use Rattle.qs_base.specs.declared.identifiers.Tid.{Tid};
    ghost use Rattle.qs_book_machine.specs.Restart.{is_among};

    ghost Value = { List Tid };

    ghost view = { λ f. f.items.items };

    ghost invariant = { λ f. (tid : Tid) → list_any (is_at (tid_cmp tid)) f.set.keys ≡ is_among f.items.items tid };
}

impl FoundCommits {
    /// These transactions.
    pub fn new(alloc: Global, tids: &[Tid]) -> Result<FoundCommits, NoMemory>
        ensures { IfOk result (λ found. found ≡ tids.now) }
    {
        let mut items = Vec::new(alloc);
        let mut set = BTreeSet::new(alloc);
        for tid in tids {
            items.push(*tid)?;
            add_tid(&mut set, *tid)?;
        }
        Ok(FoundCommits { items, set })
    }

    /// All of them.
    pub fn as_slice(&self) -> &[Tid]
        ensures { result.now ≡ self.now }
    {
        self.items.as_slice()
    }

    /// Whether the transaction is one of them.
    pub fn has(&self, tid: Tid) -> bool
        ensures { result ≡ is_among self.now tid }
    {
        self.set.contains(&tid)
    }
}

/// One more transaction, which may be there already.
pub fn add_tid(set: &mut BTreeSet<Tid>, tid: Tid) -> Result<(), NoMemory>
    ensures { OnOk result ((other : Tid) → list_any (is_at (tid_cmp other)) set.new.keys ≡ cond (is_at (tid_cmp tid) other) true (list_any (is_at (tid_cmp other)) set.old.keys)) }
{
    set.insert(tid)?;
    Ok(())
}

/// Every vote covers at least so many requests.
const LEAST_COVERS: u32 = 0;

/// The votes that a restart finds, in order. To find the vote of a member takes one look-up.
#[derive(Drop)]
pub struct FoundVotes {
    items: Vec<Found>,
    /// The greatest covers with which each member's vote was found.
    covers: BTreeMap<Voter, u32>,
}

impl Model for FoundVotes {
    ghost use Rattle.std.specs.Prelude.{◌≡◌, ℕ, List};
    ghost use Rattle.std.specs.List.{list_any};
    ghost use Rattle.std.specs.Map.{lookup};
    ghost use Rattle.std.specs.BTreeMap.{is_at};
    ghost use Rattle.qs_book_journal.specs.declared.entry.Found.{Found};
    ghost use Rattle.qs_book_machine.specs.Nodes.{voter_cmp};
    ghost use Rattle.qs_book_machine.specs.Restart.{is_found_as};
    ghost use Rattle.qs_book_machine.specs.declared.state.Voter.{Voter};
    ghost use Rattle.qs_book.specs.Found.{is_within};

    ghost Value = { List Found };

    ghost view = { λ f. f.items.items };

    ghost invariant = { λ f. (at : Voter) (covers : ℕ) → is_within (lookup (is_at (voter_cmp at)) f.covers.entries) covers ≡ list_any (is_found_as at covers) f.items.items };
}

impl FoundVotes {
    /// These votes.
    pub fn new(alloc: Global, pend: &[Found]) -> Result<FoundVotes, NoMemory>
        ensures { IfOk result (λ found. found ≡ pend.now) }
    {
        let mut items = Vec::new(alloc);
        let mut covers = BTreeMap::new(alloc);
        for found in pend {
            items.push(*found)?;
            add_covers(&mut covers, *found)?;
        }
        Ok(FoundVotes { items, covers })
    }

    /// Whether the member's vote for that transaction was found, with whatever covers.
    pub fn finds(&self, at: Voter) -> bool
        ensures { result ≡ is_found self.now at }
    {
        self.has(at, LEAST_COVERS)
    }

    /// Whether the member's vote for that transaction was found with at least these covers.
    pub fn has(&self, at: Voter, covers: u32) -> bool
        ensures { result ≡ list_any (is_found_as at covers) self.now }
    {
        is_within(self.covers.get(&at).copied(), covers)
    }
}

fn is_within(best: Option<u32>, covers: u32) -> bool
    ensures { result ≡ is_within best covers }
{
    match best {
        Some(best) => covers <= best,
        None => false,
    }
}

fn greater_covers(best: Option<u32>, covers: u32) -> u32
    ensures { result ≡ greater_covers best covers }
{
    match best {
        Some(best) if covers < best => best,
        _ => covers,
    }
}

/// One more vote; of a member's votes the greatest covers are kept.
fn add_covers(covers: &mut BTreeMap<Voter, u32>, found: Found) -> Result<(), NoMemory>
    ensures { OnOk result ((at : Voter) → lookup (is_at (voter_cmp at)) covers.new.entries ≡ cond (is_at (voter_cmp (voter_of found)) at) (Some (greater_covers (lookup (is_at (voter_cmp (voter_of found))) covers.old.entries) found.covers)) (lookup (is_at (voter_cmp at)) covers.old.entries)) }
{
    let voter = Voter {
        tid: found.tid,
        server: found.server,
    };
    let best = greater_covers(covers.get(&voter).copied(), found.covers);
    covers.insert(voter, best)?;
    Ok(())
}
