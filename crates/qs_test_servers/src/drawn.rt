//! What is drawn.

use qs_base::{Bytes, List, NoMemory, NodeNo, ServerNo, Tid};
use qs_ops::servers::{AUDIT, FILES, NAMES, SCRATCH, TIMERS, WINDOWS};
use qs_ops::{Changes, Op};
use rand_core::utils::NextWord;
use rand_pcg::Lcg64Xsh32;
use std::alloc::Global;

/// The most bytes of a text, and of one in a sequence of short texts.
const LONG: u32 = 4_096;

const SHORT: u32 = 24;

/// How long a timer runs.
const TICKS: u32 = 3;

/// Draws a sequence.
#[derive(Drop)]
pub(crate) struct Drawn {
    rng: Lcg64Xsh32,
    /// In one sequence of eight texts are long and most names the same.
    pub(crate) is_long: bool,
}

impl Drawn {
    pub(crate) fn new(rng: Lcg64Xsh32) -> Drawn {
        let mut drawn = Drawn {
            rng,
            is_long: false,
        };
        drawn.is_long = drawn.one_of(8);
        drawn
    }

    pub(crate) fn word(&mut self) -> u32 {
        self.rng.next_word()
    }

    /// Whether it is one of so many.
    pub(crate) fn one_of(&mut self, count: u32) -> bool {
        self.word().checked_rem(count) == Some(0)
    }

    /// One of six transactions, of two nodes and two incarnations.
    pub(crate) fn tid(&mut self) -> Tid {
        let word = self.word() % 6;
        Tid {
            home: NodeNo(if word % 2 == 0 { 0 } else { 1 }),
            inc: u64::from(1 + word % 3 / 2),
            seq: 1 + word / 3,
        }
    }

    fn name(&mut self, alloc: Global) -> Result<Bytes, NoMemory> {
        let word = if self.is_long {
            (self.word() % 16).saturating_sub(11)
        } else {
            self.word()
        };
        Bytes::from_slice(alloc, name_at(word).as_bytes())
    }

    fn text(&mut self, alloc: Global) -> Result<Bytes, NoMemory> {
        let length = if self.is_long {
            LONG - self.word() % 2
        } else {
            1 + self.word() % SHORT
        };
        let byte = if self.one_of(2) { b'x' } else { b'y' };
        let mut text = Bytes::from_slice(alloc, &[byte])?;
        let mut rest = List::new(alloc);
        for _at in 1..length {
            rest.push(byte)?;
        }
        text.append(rest.as_slice())?;
        Ok(text)
    }

    /// An operation of the server's own.
    pub(crate) fn op(&mut self, alloc: Global, server: ServerNo) -> Result<Op, NoMemory> {
        if self.one_of(2) {
            return self.read(alloc, server);
        }
        self.change(alloc, server)
    }

    /// An operation of the server's own that changes nothing.
    pub(crate) fn read(&mut self, alloc: Global, server: ServerNo) -> Result<Op, NoMemory> {
        let name = self.name(alloc)?;
        Ok(look_of(server, name, self.one_of(4)))
    }

    /// An operation of the server's own that changes what is under a name.
    pub(crate) fn change(&mut self, alloc: Global, server: ServerNo) -> Result<Op, NoMemory> {
        let name = self.name(alloc)?;
        if server == FILES {
            return self.file_change(alloc, name);
        }
        let text = self.text(alloc)?;
        Ok(change_of(server, name, text))
    }

    fn file_change(&mut self, alloc: Global, name: Bytes) -> Result<Op, NoMemory> {
        let kind = self.word() % 8;
        if kind == 0 {
            return Ok(Op::Del { name });
        }
        let text = self.text(alloc)?;
        if kind < 4 && !self.is_long {
            return Ok(Op::Put { name, text });
        }
        Ok(Op::Append { name, text })
    }

    /// Up to seven changes that a log kept of files or audit. One of sixteen of files is a note.
    pub(crate) fn changes(&mut self, alloc: Global, server: ServerNo) -> Result<Changes, NoMemory> {
        let mut changes = List::new(alloc);
        for _change in 0..self.word() % 8 {
            let of = if self.one_of(16) { AUDIT } else { server };
            changes.push(self.change(alloc, of)?)?;
        }
        Ok(changes)
    }
}

/// The names that operations have: one is the front of another, and one comes before all.
pub(crate) fn name_at(word: u32) -> &'static str {
    match word % 5 {
        0 => "b",
        1 => "bc",
        2 => "a",
        3 => "c",
        _ => "~",
    }
}

/// How many names there are.
pub(crate) const NAME_COUNT: u32 = 5;

/// The server's own operation that tells what is under the name; `None` where it has none.
pub(crate) fn read_of(server: ServerNo, name: Bytes) -> Option<Op> {
    match server {
        FILES => Some(Op::Get { name }),
        NAMES => Some(Op::Find { name }),
        TIMERS => Some(Op::Left { name }),
        WINDOWS => Some(Op::Title { name }),
        SCRATCH => Some(Op::Fetch { name }),
        _ => None,
    }
}

/// The same, or which names or notes there are where it has none, and of files where `lists` asks for them.
pub(crate) fn look_of(server: ServerNo, name: Bytes, lists: bool) -> Op {
    if server == FILES && lists {
        return Op::Listing;
    }
    match read_of(server, name) {
        Some(op) => op,
        None => Op::Notes,
    }
}

/// The server's own change of what is under the name; a timer runs for a few ticks.
pub(crate) fn change_of(server: ServerNo, name: Bytes, text: Bytes) -> Op {
    match server {
        FILES => Op::Put { name, text },
        AUDIT => Op::Note { text },
        NAMES => Op::Bind { name, text },
        TIMERS => Op::Timer { name, ticks: TICKS },
        WINDOWS => Op::Window { name, text },
        _ => Op::Keep { name, text },
    }
}
