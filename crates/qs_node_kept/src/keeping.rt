//! What a node keeps for its clients, as it is and as it was at the last `accept`.

use crate::kept::{Decided, Kept, KeptLabel, Lent};
use crate::labels::Labels;
use crate::ledger::Ledger;
use crate::loans::{first_untaken, give_back, is_standing_loan, last_taken, take_first};
use crate::outcomes::Outcomes;
use qs_base::{Bytes, ClientNo, NoMemory, Tid};
use std::alloc::Global;
use std::marker::Model;

/// What a node keeps for its clients. After a refusal of memory only what was accepted stands.
#[derive(Drop)]
pub struct Keeping {
    labels: Labels,
    loans: Ledger<Lent>,
    outcomes: Outcomes,
}

impl Model for Keeping {
    ghost use Rattle.qs_node_kept.specs.Keeping.{KeepingValue};

    ghost Value = { KeepingValue };

    ghost view = { λ k. record {
      now = record { labels = k.labels.now; loans = k.loans.now; outcomes = k.outcomes.now };
      saved = record { labels = k.labels.saved; loans = k.loans.saved; outcomes = k.outcomes.saved };
    } };
}

impl Keeping {
    ghost use Rattle.std.specs.Prelude.{◌≡◌, ◌++◌, ◌∷◌, [], OnOk, IfOk, IfErr};
    ghost use Rattle.std.specs.List.{find, list_any};
    ghost use Rattle.std.specs.Option.{option_copied};
    ghost use Rattle.qs_node_kept.specs.Keeping.{has_label, is_label_of, is_outcome_of, kept_as, with_now, accepted};
    ghost use Rattle.qs_node_kept.specs.Loans.{first_untaken, take_first, last_taken, give_back, is_standing_loan};

    /// What an earlier incarnation kept, all accepted. For want of memory it is handed back.
    pub fn new(alloc: Global, kept: Kept) -> Result<Keeping, Kept>
        ensures ok { IfOk result (λ keeping. keeping ≡ kept_as kept) }
        ensures back { IfErr result (λ back. back ≡ kept) }
    {
        let Kept {
            labels,
            loans,
            outcomes,
        } = kept;
        let labels = match Labels::new(alloc, labels) {
            Ok(labels) => labels,
            Err(labels) => {
                return Err(Kept {
                    labels,
                    loans,
                    outcomes,
                });
            }
        };
        match Outcomes::new(alloc, outcomes) {
            Ok(outcomes) => Ok(Keeping {
                labels,
                loans: Ledger::new(alloc, loans),
                outcomes,
            }),
            Err(outcomes) => Err(Kept {
                labels: labels.restore(),
                loans,
                outcomes,
            }),
        }
    }

    // ---- labels

    /// The labels that the node has met, in the order in which it met them.
    pub fn labels(&self) -> &[KeptLabel]
        ensures { result.now ≡ self.now.now.labels }
    {
        self.labels.items()
    }

    /// The label, where the node has met it.
    pub fn label_at(&self, label: &Bytes) -> Option<&KeptLabel>
        ensures { option_copied result ≡ find (has_label label.now) self.now.now.labels }
    {
        self.labels.at(label)
    }

    /// The label of the transaction, where the node has met it.
    pub fn label_of(&self, tid: Tid) -> Option<&KeptLabel>
        ensures { option_copied result ≡ find (is_label_of tid) self.now.now.labels }
    {
        self.labels.of(tid)
    }

    /// A label is met.
    pub fn put_label(&mut self, begun: KeptLabel) -> Result<(), NoMemory>
        ensures ok { OnOk result (self.new ≡ with_now (λ kept. record kept { labels = kept.labels ++ begun ∷ [] }) self.old) }
        ensures saved { self.new.saved ≡ self.old.saved }
    {
        self.labels.push(begun)
    }

    // ---- outcomes

    /// How the transaction ended, where that is kept.
    pub fn outcome_of(&self, tid: Tid) -> Option<&Decided>
        ensures { option_copied result ≡ find (is_outcome_of tid) self.now.now.outcomes }
    {
        self.outcomes.of(tid)
    }

    /// A transaction ended so.
    pub fn put_outcome(&mut self, decided: Decided) -> Result<(), NoMemory>
        ensures ok { OnOk result (self.new ≡ with_now (λ kept. record kept { outcomes = kept.outcomes ++ decided ∷ [] }) self.old) }
        ensures saved { self.new.saved ≡ self.old.saved }
    {
        self.outcomes.push(decided)
    }

    // ---- loans

    /// Whether a loan of the transaction that was made in that incarnation was not given back.
    pub fn has_standing(&self, tid: Tid, inc: u64) -> bool
        ensures { result ≡ list_any (is_standing_loan tid inc) self.now.now.loans }
    {
        self.loans
            .items()
            .iter()
            .any(|loan| is_standing_loan(tid, inc, loan))
    }

    /// A loan is made.
    pub fn put_loan(&mut self, loan: Lent) -> Result<(), NoMemory>
        ensures ok { OnOk result (self.new ≡ with_now (λ kept. record kept { loans = kept.loans ++ loan ∷ [] }) self.old) }
        ensures saved { self.new.saved ≡ self.old.saved }
    {
        self.loans.push(loan)
    }

    /// The first loan to that client that no take has taken.
    pub fn first_untaken(&self, client: ClientNo, tid: Tid) -> Option<Lent>
        ensures { result ≡ first_untaken client tid self.now.now.loans }
    {
        first_untaken(self.loans.items(), client, tid)
    }

    /// It is taken.
    pub fn take_first(&mut self, client: ClientNo, tid: Tid) -> Result<(), NoMemory>
        ensures ok { OnOk result (self.new ≡ with_now (λ kept. record kept { loans = take_first client tid kept.loans }) self.old) }
        ensures saved { self.new.saved ≡ self.old.saved }
    {
        take_first(&mut self.loans, client, tid)
    }

    /// The last loan to that client that was taken.
    pub fn last_taken(&self, client: ClientNo, tid: Tid) -> Option<Lent>
        ensures { result ≡ last_taken client tid self.now.now.loans }
    {
        last_taken(self.loans.items(), client, tid)
    }

    /// It is given back.
    pub fn give_back(&mut self, client: ClientNo, tid: Tid) -> Result<(), NoMemory>
        ensures ok { OnOk result (self.new ≡ with_now (λ kept. record kept { loans = give_back client tid kept.loans }) self.old) }
        ensures saved { self.new.saved ≡ self.old.saved }
    {
        give_back(&mut self.loans, client, tid)
    }

    // ---- all of it

    /// What is kept counts from now on. It takes no memory.
    pub fn accept(&mut self)
        ensures { self.new ≡ accepted self.old }
    {
        self.labels.accept();
        self.loans.accept();
        self.outcomes.accept();
    }

    /// What was kept at the last `accept`. It takes no memory.
    pub fn restore(self) -> Kept
        ensures { result ≡ self.saved }
    {
        let Keeping {
            labels,
            loans,
            outcomes,
        } = self;
        Kept {
            labels: labels.restore(),
            loans: loans.restore(),
            outcomes: outcomes.restore(),
        }
    }
}
