//! A load script while it is written.
ghost use Rattle.std.specs.Prelude.{◌≡◌, ◌++◌, OnOk, string_bytes};
ghost use Rattle.rand_pcg.specs.Pcg.{pcg32};
ghost use Rattle.qs_gen.specs.Load.{empty_draft, with_line, with_clients, with_put, with_puts, with_end, with_transaction, with_transactions, with_commands};

use crate::lines::{Label, begin_line, client_line, end_line, put_line};
use qs_base::{Bytes, NoMemory};
use rand_core::utils::NextWord;
use rand_pcg::Lcg64Xsh32;
use std::alloc::Global;

/// How many clients it has.
const CLIENT_COUNT: u8 = 8;

/// How many transactions each client has.
const TRANSACTION_COUNT: u8 = 40;

/// How many files each transaction puts.
const FILE_COUNT: u8 = 4;

/// The lines so far, and what draws the words for those that follow.
#[derive(Drop)]
pub struct Draft {
    pub text: Bytes,
    pub rng: Lcg64Xsh32,
}

impl Draft {
    /// One without lines yet, for a seed.
    pub fn new(alloc: Global, seed: u64) -> Draft
        ensures { result ≡ empty_draft seed }
    {
        Draft {
            text: Bytes::new(alloc),
            rng: Lcg64Xsh32::new(seed, 0),
        }
    }

    /// The lines.
    pub fn into_text(self) -> Bytes
        ensures { result ≡ self.text }
    {
        let Draft { text, rng: _ } = self;
        text
    }

    /// Adds a line.
    fn add(&mut self, line: String) -> Result<(), NoMemory>
        ensures { OnOk result (self.new ≡ with_line (string_bytes line) self.old) }
    {
        self.text.append(line.as_bytes())
    }

    /// Adds the clients.
    pub fn add_clients(&mut self, alloc: Global) -> Result<(), NoMemory>
        ensures { OnOk result (self.new ≡ with_clients 8 self.old) }
    {
        for client in 0..CLIENT_COUNT {
            self.add(client_line(alloc, client)?)?;
        }
        Ok(())
    }

    /// Adds the commands of all clients, one client after another.
    pub fn add_commands(&mut self, alloc: Global) -> Result<(), NoMemory>
        ensures { OnOk result (self.new ≡ with_commands 8 self.old) }
    {
        for client in 0..CLIENT_COUNT {
            self.add_transactions(alloc, client)?;
        }
        Ok(())
    }

    /// Adds the transactions of a client.
    fn add_transactions(&mut self, alloc: Global, client: u8) -> Result<(), NoMemory>
        ensures { OnOk result (self.new ≡ with_transactions client 40 self.old) }
    {
        for number in 0..TRANSACTION_COUNT {
            self.add_transaction(alloc, Label { client, number })?;
        }
        Ok(())
    }

    /// Adds a transaction.
    fn add_transaction(&mut self, alloc: Global, label: Label) -> Result<(), NoMemory>
        ensures { OnOk result (self.new ≡ with_transaction label self.old) }
    {
        self.add(begin_line(alloc, label)?)?;
        self.add_puts(alloc, label)?;
        self.add_end(alloc, label)
    }

    /// Adds the puts of a transaction.
    fn add_puts(&mut self, alloc: Global, label: Label) -> Result<(), NoMemory>
        ensures { OnOk result (self.new ≡ with_puts label 4 self.old) }
    {
        for file in 0..FILE_COUNT {
            self.add_put(alloc, label, file)?;
        }
        Ok(())
    }

    /// Adds a put of a transaction, of two words.
    fn add_put(&mut self, alloc: Global, label: Label, file: u8) -> Result<(), NoMemory>
        ensures { OnOk result (self.new ≡ with_put label file self.old) }
    {
        let node_word = self.rng.next_word();
        let text_word = self.rng.next_word();
        self.add(put_line(alloc, label, file, node_word, text_word)?)
    }

    /// Adds the end of a transaction, of one word.
    fn add_end(&mut self, alloc: Global, label: Label) -> Result<(), NoMemory>
        ensures { OnOk result (self.new ≡ with_end label self.old) }
    {
        let word = self.rng.next_word();
        self.add(end_line(alloc, label, word)?)
    }
}
