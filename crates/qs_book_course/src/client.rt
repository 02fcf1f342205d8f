//! What the script and the run so far say of a client.
ghost use Rattle.std.specs.Prelude.{◌≡◌, ◌++◌, ◌∷◌, [], Some, OnOk};
ghost use Rattle.std.specs.Option.{option_copied};
ghost use Rattle.qs_book_conformance.specs.Course.{is_seat};
ghost use Rattle.qs_book_conformance.specs.Commands.{is_take};

use crate::borrowing::Borrowing;
use qs_base::{Bytes, NoMemory, NodeNo, Tid};
use qs_book::Book;
use qs_book_conformance::{CommandMade, Loan};
use qs_book_journal::{Command, ScriptLine};
use qs_ops::Answer;
use std::alloc::Global;
use std::collections::{BTreeMap, BTreeSet, VecDeque};
use std::marker::Model;

/// A client: its seat, its commands that are not answered, and what it borrowed.
#[derive(Drop)]
pub struct ClientCourse {
    alloc: Global,
    seat: Option<NodeNo>,
    left: VecDeque<ScriptLine>,
    made: CommandMade,
    refused: BTreeSet<Bytes>,
    borrowed: BTreeMap<Tid, Borrowing>,
}

impl Model for ClientCourse {
    ghost use Rattle.qs_book_conformance.specs.Course.{ClientValue};

    ghost Value = { ClientValue };

    ghost view = { λ c. record {
      seat = c.seat;
      left = c.left.items;
      made = c.made;
      refused = c.refused.keys;
      borrowed = c.borrowed.entries;
    } };
}

impl ClientCourse {
    ghost use Rattle.qs_book_conformance.specs.Answers.{is_refused};
    ghost use Rattle.qs_book_conformance.specs.Begun.{no_client};
    ghost use Rattle.qs_book_conformance.specs.Borrowing.{next_loan, present_loan};
    ghost use Rattle.qs_book_conformance.specs.Course.{seated_first, borrowing_of};
    ghost use Rattle.qs_book_conformance.specs.Effects.{with_borrowing, lent_in, gave_back, taken_one, taken_by, refused_by, answered};
    ghost use Rattle.qs_book_conformance.specs.declared.values.CommandMade.TheVariants as makes;

    /// A client of which nothing is said. It takes no memory.
    pub fn new(alloc: Global) -> ClientCourse
        ensures { result ≡ no_client }
    {
        ClientCourse {
            alloc,
            seat: None,
            left: VecDeque::new(alloc),
            made: CommandMade::Nothing,
            refused: BTreeSet::new(alloc),
            borrowed: BTreeMap::new(alloc),
        }
    }

    /// It sits at this node.
    pub fn sit(&mut self, node: NodeNo)
        ensures { self.new ≡ record self.old { seat = Some node } }
    {
        self.seat = Some(node);
    }

    /// One more command of it.
    pub fn command(&mut self, line: ScriptLine) -> Result<(), NoMemory>
        ensures { OnOk result (self.new ≡ record self.old { left = self.old.left ++ line ∷ [] }) }
    {
        self.left.push_back(line)?;
        Ok(())
    }

    /// Whether it sits at that node.
    pub fn sits_at(&self, here: NodeNo) -> bool
        ensures { result ≡ is_seat self.now.seat here.0 }
    {
        match self.seat {
            Some(seat) => seat == here,
            None => false,
        }
    }

    /// Its first command that is not answered, where it sits at that node.
    pub fn seated_first(&self, here: NodeNo) -> Option<&ScriptLine>
        ensures { option_copied result ≡ seated_first here.0 self.now }
    {
        if !self.sits_at(here) {
            return None;
        }
        self.left.front()
    }

    /// What that command has made.
    pub fn made(&self) -> CommandMade
        ensures { result ≡ self.now.made }
    {
        self.made
    }

    /// Its first command has made this.
    pub fn make(&mut self, made: CommandMade)
        ensures { self.new ≡ record self.old { made = made } }
    {
        self.made = made;
    }

    /// Whether its begin of that label was refused.
    pub fn is_refused(&self, label: &Bytes) -> bool
        ensures { result ≡ is_refused self.now label.now }
    {
        self.refused.contains(label)
    }

    /// The loan of that transaction which its next take takes.
    pub fn next_loan(&self, tid: Tid) -> Option<Loan>
        ensures { result ≡ next_loan (borrowing_of self.now tid) }
    {
        match self.borrowed.get(&tid) {
            Some(borrowing) => borrowing.next(),
            None => None,
        }
    }

    /// The loan of that transaction which its last take took.
    pub fn present_loan(&self, tid: Tid) -> Option<Loan>
        ensures { result ≡ present_loan (borrowing_of self.now tid) }
    {
        match self.borrowed.get(&tid) {
            Some(borrowing) => borrowing.present(),
            None => None,
        }
    }

    /// A loan of that transaction is made to it in this incarnation of its node.
    pub fn lend(&mut self, tid: Tid, inc: u64) -> Result<(), NoMemory>
        ensures { OnOk result (self.new ≡ with_borrowing tid (lent_in inc) self.old) }
    {
        let new = Borrowing::new(self.alloc);
        self.borrowed.entry(tid)?.or_insert(new).lend(inc)
    }

    /// It gives its present loan of that transaction back.
    pub fn give_back(&mut self, tid: Tid) -> Result<(), NoMemory>
        ensures { OnOk result (self.new ≡ record (with_borrowing tid gave_back self.old) { made = makes.GaveBack }) }
    {
        let new = Borrowing::new(self.alloc);
        self.borrowed.entry(tid)?.or_insert(new).give_back();
        self.made = CommandMade::GaveBack;
        Ok(())
    }

    /// It takes its next loan of that transaction.
    fn take(&mut self, tid: Tid) -> Result<(), NoMemory>
        ensures { OnOk result (self.new ≡ with_borrowing tid taken_one self.old) }
    {
        let new = Borrowing::new(self.alloc);
        self.borrowed.entry(tid)?.or_insert(new).take()
    }

    /// A take is answered.
    fn take_by(&mut self, book: &Book, line: &ScriptLine) -> Result<(), NoMemory>
        ensures { OnOk result (self.new ≡ taken_by book.now line.now self.old) }
    {
        if is_take(&line.command) {
            if let Some(tid) = book.begun_as(&line.label) {
                self.take(tid)?;
            }
        }
        Ok(())
    }

    /// A begin is refused.
    fn refuse_by(&mut self, line: ScriptLine, answer: &Answer) -> Result<(), NoMemory>
        ensures { OnOk result (self.new ≡ refused_by line answer.now self.old) }
    {
        // (the command first, which has many kinds and is not needed any more)
        let ScriptLine { label, command, .. } = line;
        drop(command);
        if matches!(answer, Answer::LogFull { .. }) {
            self.refused.insert(label)?;
        }
        Ok(())
    }

    /// Its first command is answered, and the next one comes.
    #[tactic(auto, using(crate::proofs::Answered::answered_first))]
    pub fn answer(&mut self, book: &Book, answer: &Answer) -> Result<(), NoMemory>
        ensures { OnOk result (self.new ≡ answered book.now answer.now self.old) }
    {
        self.made = CommandMade::Nothing;
        let Some(line) = self.left.pop_front() else {
            return Ok(());
        };
        self.take_by(book, &line)?;
        self.refuse_by(line, answer)
    }
}

fn is_take(command: &Command) -> bool
    ensures { result ≡ is_take command.now }
{
    matches!(command, Command::Take)
}
