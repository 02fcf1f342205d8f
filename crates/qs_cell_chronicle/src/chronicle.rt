//! What a cell tells: its journal, its trace, and its counts.
ghost use Rattle.std.specs.Prelude.{◌≡◌, ◌≤◌, ◌<◌, ◌^◌, ◌+◌, ◌++◌, ◌∷◌, fold, length, Some, None, [], All, IfOk, OnOk};
ghost use Rattle.qs_node_step.specs.declared.trace.Step.{Step};
ghost use Rattle.qs_packet.specs.Grammar.{IsPacket};
ghost use Rattle.qs_cell_chronicle.specs.Chronicle.{HasRoom, new_told, is_last, is_last_past, stamped, stamped_past, numbered, in_act, in_round, with_entry, step_of, noted, crashed};

use crate::Tape;
use qs_base::{List, NoMemory, NodeNo, Stamp};
use qs_book_journal::{Act, CrashCause, Entry};
use qs_node_step::{Did, Step};
use qs_packet::Packet;
use std::alloc::Global;
use std::marker::Model;

/// No stamp is greater.
pub const LAST_STAMP: Stamp = (1 << 62) - 1;

/// The journal and the trace of a node, and what it counts. A crash ends none of it.
#[derive(Drop)]
pub struct Chronicle {
    // In a box, since it is handed on by value as its node starts and stops.
    pages: Box<Pages>,
}

/// What a chronicle holds.
#[derive(Drop)]
struct Pages {
    alloc: Global,
    node: NodeNo,
    stamp: Stamp,
    acts: u64,
    rounds: u64,
    events: u64,
    journal: Tape<Entry>,
    trace: Tape<Step>,
}

impl Model for Chronicle {
    ghost use Rattle.qs_cell_chronicle.specs.Chronicle.{ChronicleValue, IsInOrder};

    ghost Value = { ChronicleValue };

    ghost view = { λ c. record {
      told = record { node = c.pages.value.node; stamp = c.pages.value.stamp; acts = c.pages.value.acts; rounds = c.pages.value.rounds; events = c.pages.value.events; journal = c.pages.value.journal.items; trace = c.pages.value.trace.items };
      entries = c.pages.value.journal.spare;
      steps = c.pages.value.trace.spare;
    } };

    ghost invariant = { λ c. IsInOrder c.pages.value.stamp c.pages.value.trace.items };
}

impl Chronicle {
    /// Nothing has happened. The only error is a refusal of memory.
    pub fn new(alloc: Global, node: NodeNo) -> Result<Chronicle, NoMemory>
        ensures { IfOk result (λ chronicle. chronicle.told ≡ new_told node) }
    {
        let pages = Pages {
            alloc,
            node,
            stamp: 0,
            acts: 0,
            rounds: 0,
            events: 0,
            journal: Tape::new(alloc),
            trace: Tape::new(alloc),
        };
        match Box::new(alloc, pages) {
            Ok(pages) => Ok(Chronicle { pages }),
            Err(_) => Err(NoMemory),
        }
    }

    /// Room for so many more entries and steps. Room that was made before stays. `NoMemory` comes where memory was refused.
    pub fn make_room(&mut self, entries: usize, steps: usize) -> Result<(), NoMemory>
        ensures told { self.new.told ≡ self.old.told }
        ensures ok { OnOk result (HasRoom entries steps self.new) }
        ensures kept { HasRoom self.old.entries self.old.steps self.new }
    {
        self.pages.journal.make_room(entries)?;
        self.pages.trace.make_room(steps)
    }

    /// The stamp of the last step.
    pub fn stamp(&self) -> Stamp
        ensures stamp { result ≡ self.now.told.stamp }
        ensures low { result < 2 ^ 62 }
    {
        self.pages.stamp
    }

    /// Whether no stamp is greater than the last step's and another one.
    pub fn is_last_past(&self, other: Stamp) -> bool
        ensures { result ≡ is_last_past other self.now.told }
    {
        self.pages.stamp.max(other) >= LAST_STAMP
    }

    /// The next step's stamp: one more, unless it stands at its last value.
    pub fn next_stamp(&mut self)
        ensures told { self.new.told ≡ stamped self.old.told }
        ensures room { HasRoom self.old.entries self.old.steps self.new }
    {
        if self.pages.stamp < LAST_STAMP {
            self.pages.stamp += 1;
        }
    }

    /// The stamp of a step that brings a packet with that one: one more than the greater of both, unless that one is the last; then it
    /// stays as it is.
    pub fn next_stamp_past(&mut self, other: Stamp)
        ensures told { self.new.told ≡ stamped_past other self.old.told }
        ensures room { HasRoom self.old.entries self.old.steps self.new }
    {
        let greatest = self.pages.stamp.max(other);
        if greatest < LAST_STAMP {
            self.pages.stamp = greatest + 1;
        }
    }

    /// An event takes its number, which is answered.
    pub fn number(&mut self) -> u64
        ensures told { self.new.told ≡ numbered self.old.told }
        ensures number { result ≡ self.new.told.events }
        ensures room { HasRoom self.old.entries self.old.steps self.new }
    {
        self.pages.events = self.pages.events.saturating_add(1);
        self.pages.events
    }

    /// One more visit or restart.
    pub fn begin_round(&mut self)
        ensures told { self.new.told ≡ in_round self.old.told }
        ensures room { HasRoom self.old.entries self.old.steps self.new }
    {
        self.pages.rounds = self.pages.rounds.saturating_add(1);
    }

    /// One more act in a burst.
    pub fn begin_act(&mut self)
        ensures told { self.new.told ≡ in_act self.old.told }
        ensures room { HasRoom self.old.entries self.old.steps self.new }
    {
        self.pages.acts = self.pages.acts.saturating_add(1);
    }

    /// A step that puts these packets to the links, with the entries of these acts, for which there is room. It takes no memory.
    pub fn note(&mut self, did: Did, put: List<Packet>, acts: List<Act>)
        requires put { All IsPacket put }
        requires room { HasRoom (length acts) 1 self.old }
        ensures told { self.new.told ≡ noted did put acts None self.old.told }
        ensures entries { self.old.entries ≤ self.new.entries + length acts }
        ensures steps { self.old.steps ≤ self.new.steps + 1 }
    {
        self.add_entries(acts);
        self.add_step(did, put, None);
    }

    /// A step in which the node stops, for which there is room. It takes no memory.
    pub fn note_crash(&mut self, did: Did, cause: CrashCause)
        requires room { HasRoom 1 1 self.old }
        ensures told { self.new.told ≡ crashed did cause self.old.told }
    {
        let nothing = List::new(self.pages.alloc);
        self.add_entry(Act::Crash { cause });
        self.add_step(did, nothing, Some(cause));
    }

    /// A step with one entry, for which there is room, that puts nothing. It takes no memory.
    pub fn note_one(&mut self, did: Did, act: Act)
        requires room { HasRoom 1 1 self.old }
        ensures told { self.new.told ≡ noted did [] (act ∷ []) None self.old.told }
    {
        let nothing = List::new(self.pages.alloc);
        self.add_entry(act);
        self.add_step(did, nothing, None);
    }

    /// A step without entries, for which there is room, that puts nothing. It takes no memory.
    pub fn note_none(&mut self, did: Did)
        requires room { 0 < self.old.steps }
        ensures told { self.new.told ≡ noted did [] [] None self.old.told }
    {
        let nothing = List::new(self.pages.alloc);
        self.add_step(did, nothing, None);
    }

    /// Entries with the node and the stamp that stands.
    fn add_entries(&mut self, acts: List<Act>)
        requires room { length acts ≤ self.old.entries }
        ensures told { self.new.told ≡ fold with_entry self.old.told acts }
        ensures entries { self.old.entries ≤ self.new.entries + length acts }
        ensures steps { self.new.steps ≡ self.old.steps }
    {
        for act in acts.into_vec() {
            self.add_entry(act);
        }
    }

    /// An entry with the node and the stamp that stands.
    fn add_entry(&mut self, act: Act)
        requires room { 0 < self.old.entries }
        ensures told { self.new.told ≡ with_entry self.old.told act }
        ensures entries { self.old.entries ≤ self.new.entries + 1 }
        ensures steps { self.new.steps ≡ self.old.steps }
    {
        let entry = Entry {
            stamp: self.pages.stamp,
            node: self.pages.node,
            act,
        };
        self.pages.journal.push(entry);
    }

    /// A step, without its entries.
    fn add_step(&mut self, did: Did, put: List<Packet>, crash: Option<CrashCause>)
        requires put { All IsPacket put }
        requires room { 0 < self.old.steps }
        ensures told { self.new.told ≡ record self.old.told { trace = self.old.told.trace ++ step_of self.old.told did put crash ∷ [] } }
        ensures entries { self.new.entries ≡ self.old.entries }
        ensures steps { self.old.steps ≤ self.new.steps + 1 }
    {
        let step = Step {
            stamp: self.pages.stamp,
            node: self.pages.node,
            acts: self.pages.acts,
            rounds: self.pages.rounds,
            did,
            put,
            crash,
        };
        self.pages.trace.push(step);
    }

    /// The entries so far, in order.
    pub fn journal(&self) -> &[Entry]
        ensures { result.now ≡ self.now.told.journal }
    {
        self.pages.journal.items()
    }

    /// The steps so far, in order. All that they put has a spelling.
    pub fn trace(&self) -> &[Step]
        ensures trace { result.now ≡ self.now.told.trace }
        ensures spelled { All (λ (step : Step). All IsPacket step.put) result.now }
    {
        self.pages.trace.items()
    }

    /// The entries and the steps, in order, by value. It takes no memory.
    pub fn into_parts(self) -> (List<Entry>, List<Step>)
        ensures journal { result.0 ≡ self.told.journal }
        ensures trace { result.1 ≡ self.told.trace }
    {
        let Pages { journal, trace, .. } = Box::into_inner(self.pages);
        (journal.into_list(), trace.into_list())
    }

    /// How many acts it made in bursts.
    pub fn acts(&self) -> u64
        ensures { result ≡ self.now.told.acts }
    {
        self.pages.acts
    }

    /// How often it was visited or restarted.
    pub fn rounds(&self) -> u64
        ensures { result ≡ self.now.told.rounds }
    {
        self.pages.rounds
    }
}
