//! The checker: takes a journal in as long as it conforms to its script.
ghost use Rattle.std.specs.Prelude.{◌≡◌, ◌↔◌, None, Some, OnOk, IfOk};
ghost use Rattle.qs_book_machine.specs.Lawful.{broken};
ghost use Rattle.qs_book_machine.specs.Opening.{opening};
ghost use Rattle.qs_book_conformance.specs.Begun.{at_start};
ghost use Rattle.qs_book_conformance.specs.Conforming.{Conforms, first_misfit, first_misfit_from, fault_of};
ghost use Rattle.qs_book_conformance.specs.Effects.{course_after};

use crate::fault::CheckFault;
use crate::judging::broken_rule;
use qs_base::NoMemory;
use qs_book::{Book, Opened};
use qs_book_conformance::{Fault, Misfit, no_misfit_means_conforming};
use qs_book_course::Course;
use qs_book_journal::Entry;
use qs_book_script::Script;
use std::alloc::Global;
use std::marker::Model;

/// A run that is judged as it goes: what its script and its journal so far say.
#[derive(Drop)]
pub struct Checker {
    course: Course,
}

impl Model for Checker {
    ghost use Rattle.qs_book_conformance.specs.Course.{CourseValue};

    ghost Value = { CourseValue };

    ghost view = { λ c. c.course };
}

impl Checker {
    ghost use Rattle.std.specs.Prelude.{◌≢◌, ℕ, Err, IfErr};
    ghost use Rattle.qs_book_conformance.specs.declared.fault.Fault.TheVariants as faults;
    ghost use Rattle.qs_book_conformance.specs.declared.fault.Rule.{Rule};
    ghost use Rattle.qs_book_check.specs.declared.fault.CheckFault.TheVariants as told;

    /// As a run of this script begins, from what the logs of its nodes hold. The only error is a
    /// refusal of memory.
    pub fn new(alloc: Global, script: &Script, opened: &[Opened]) -> Result<Checker, NoMemory>
        ensures { IfOk result (λ checker. checker ≡ at_start script.now (opening opened.now)) }
    {
        Ok(Checker {
            course: Course::new(alloc, script, opened)?,
        })
    }

    /// The reference machine, with all entries that were taken in.
    pub fn book(&self) -> &Book
        ensures { result.now ≡ self.now.book }
    {
        self.course.book()
    }

    /// Why the entry does not conform; `None` exactly where it does. The first clause of the
    /// reference machine that it breaks is told, else the first rule of the script. The only error
    /// is a refusal of memory, for which a count at its end stands too.
    pub fn fault(&self, entry: &Entry) -> Result<Option<Fault>, NoMemory>
        ensures fault { IfOk result (λ fault. fault ≡ fault_of self.now entry.now) }
        ensures lawful { IfOk result (λ fault. fault ≡ None → broken self.now.book entry.now ≡ None) }
    {
        if let Some(clause) = self.book().broken(entry)? {
            return Ok(Some(Fault::Unlawful { clause }));
        }
        match broken_rule(&self.course, entry)? {
            Some(rule) => Ok(Some(Fault::Broken { rule })),
            None => Ok(None),
        }
    }

    /// Takes an entry in, where it conforms. Where it does not, the fault tells why, and all is as it
    /// was. After [`CheckFault::NoMemory`] nothing is said of what the checker holds: drop it.
    pub fn take_entry(&mut self, entry: &Entry) -> Result<(), CheckFault>
        ensures conforms { OnOk result (fault_of self.old entry.now ≡ None) }
        ensures effect { OnOk result (self.new ≡ course_after self.old entry.now) }
        ensures unlawful { (clause : ℕ) → result ≡ Err (told.Unlawful clause) → fault_of self.old entry.now ≡ Some (faults.Unlawful clause) }
        ensures misfit { (rule : Rule) → result ≡ Err (told.Broken rule) → fault_of self.old entry.now ≡ Some (faults.Broken rule) }
        ensures unchanged { IfErr result (λ fault. fault ≢ told.NoMemory → self.new ≡ self.old) }
    {
        match self.fault(entry)? {
            Some(Fault::Unlawful { clause }) => Err(CheckFault::Unlawful { clause }),
            Some(Fault::Broken { rule }) => Err(CheckFault::Broken { rule }),
            None => {
                self.course.take_in(entry)?;
                Ok(())
            }
        }
    }
}

/// The first entry of a history that does not conform to the script, with the clause or the rule that
/// it breaks, from what the logs of the run's nodes hold: `None` exactly where the history conforms.
/// The only error is a refusal of memory, for which a count at its end stands too.
pub fn first_misfit(
    alloc: Global,
    script: &Script,
    opened: &[Opened],
    history: &[Entry],
) -> Result<Option<Misfit>, NoMemory>
    ensures misfit { IfOk result (λ misfit. misfit ≡ first_misfit script.now (opening opened.now) history.now) }
    ensures conforms { IfOk result (λ misfit. (misfit ≡ None) ↔ Conforms script.now (opening opened.now) history.now) }
{
    no_misfit_means_conforming();
    let mut checker = Checker::new(alloc, script, opened)?;
    let found = first_misfit_from(&mut checker, history);
    drop(checker);
    found
}

/// The first of these entries that does not conform, by its place among them.
fn first_misfit_from(checker: &mut Checker, entries: &[Entry]) -> Result<Option<Misfit>, NoMemory>
    ensures { IfOk result (λ misfit. misfit ≡ first_misfit_from 0 checker.old entries.now) }
{
    let mut place = 0;
    let mut rest = entries;
    while let [entry, more @ ..] = rest {
        if let Some(fault) = checker.fault(entry)? {
            return Ok(Some(Misfit { place, fault }));
        }
        checker.course.take_in(entry)?;
        place += 1;
        rest = more;
    }
    Ok(None)
}
