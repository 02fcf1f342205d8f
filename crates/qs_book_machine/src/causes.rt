//! The causes of a client's aborts.
ghost use Rattle.std.specs.Prelude.{◌≡◌, [], OnOk, OnErr};
ghost use Rattle.std.specs.List.{list_any};
ghost use Rattle.std.specs.BTreeSet.{insert_key};
ghost use Rattle.qs_ops.specs.Alike.{same_cause};
ghost use Rattle.qs_book_machine.specs.Causes.{cause_cmp};

use qs_base::NoMemory;
use qs_ops::Cause;
use std::alloc::Global;
use std::collections::BTreeSet;
use std::marker::Model;

/// Causes of abort, each once. To find one takes one look-up.
#[derive(Drop)]
pub struct Causes {
    set: BTreeSet<Cause>,
}

impl Model for Causes {
    ghost use Rattle.std.specs.Prelude.{List};
    ghost use Rattle.qs_ops.specs.declared.answer.Cause.{Cause};

    ghost Value = { List Cause };

    ghost view = { λ c. c.set.keys };
}

impl Causes {
    /// No cause. It takes no memory.
    pub fn new(alloc: Global) -> Causes
        ensures { result ≡ [] }
    {
        Causes {
            set: BTreeSet::new(alloc),
        }
    }

    /// One more cause. After a refusal all is as it was.
    pub fn add(&mut self, cause: Cause) -> Result<(), NoMemory>
        ensures ok { OnOk result (self.new ≡ insert_key cause_cmp self.old cause) }
        ensures err { OnErr result (self.new ≡ self.old) }
    {
        self.set.insert(cause)?;
        Ok(())
    }

    /// Whether it is one of them.
    pub fn has(&self, cause: &Cause) -> bool
        ensures { result ≡ list_any (same_cause cause.now) self.now }
    {
        self.set.contains(cause)
    }
}
