//! What a client borrowed of one transaction.
ghost use Rattle.std.specs.Prelude.{◌≡◌, OnOk};
ghost use Rattle.qs_book_machine.specs.Book.{changed_at};
ghost use Rattle.qs_book_conformance.specs.Effects.{given_back};

use qs_base::NoMemory;
use qs_book_conformance::Loan;
use std::alloc::Global;
use std::marker::Model;

/// The loans of a transaction to a client, and how many of its takes were answered.
#[derive(Drop)]
pub struct Borrowing {
    loans: Vec<Loan>,
    taken: usize,
}

impl Model for Borrowing {
    ghost use Rattle.qs_book_conformance.specs.Course.{BorrowingValue};

    ghost Value = { BorrowingValue };

    ghost view = { λ b. record { loans = b.loans.items; taken = b.taken } };
}

impl Borrowing {
    ghost use Rattle.qs_book_conformance.specs.Borrowing.{next_loan, present_loan};
    ghost use Rattle.qs_book_conformance.specs.Course.{no_borrowing};
    ghost use Rattle.qs_book_conformance.specs.Effects.{lent_in, gave_back, taken_one};

    /// Nothing. It takes no memory.
    pub fn new(alloc: Global) -> Borrowing
        ensures { result ≡ no_borrowing }
    {
        Borrowing {
            loans: Vec::new(alloc),
            taken: 0,
        }
    }

    /// The loan that the next take takes.
    pub fn next(&self) -> Option<Loan>
        ensures { result ≡ next_loan self.now }
    {
        self.loans.get(self.taken).copied()
    }

    /// The loan that the last take took.
    pub fn present(&self) -> Option<Loan>
        ensures { result ≡ present_loan self.now }
    {
        if self.taken == 0 {
            return None;
        }
        self.loans.get(self.taken - 1).copied()
    }

    /// A loan is made in this incarnation of the client's node.
    pub fn lend(&mut self, inc: u64) -> Result<(), NoMemory>
        ensures { OnOk result (self.new ≡ lent_in inc self.old) }
    {
        self.loans.push(Loan {
            inc,
            given_back: false,
        })?;
        Ok(())
    }

    /// A take is answered.
    pub fn take(&mut self) -> Result<(), NoMemory>
        ensures { OnOk result (self.new ≡ taken_one self.old) }
    {
        self.taken = self.taken.checked_add(1).ok_or(NoMemory)?;
        Ok(())
    }

    /// The present loan is given back.
    pub fn give_back(&mut self)
        ensures { self.new ≡ gave_back self.old }
    {
        give_back_at(&mut self.loans, self.taken.saturating_sub(1));
    }
}

fn give_back_at(loans: &mut Vec<Loan>, place: usize)
    ensures { loans.new.items ≡ changed_at place given_back loans.old.items }
{
    if place < loans.len() {
        loans[place].given_back = true;
    }
}
