//! Why the checker does not take an entry in.

use qs_base::NoMemory;
use qs_book_conformance::Rule;
use thiserror::Error;

/// Why an entry was not taken in.
#[derive(Clone, Copy, Debug, Error)]
pub enum CheckFault {
    /// It is no lawful step of the reference machine: the first clause that it breaks.
    #[error("the entry breaks clause {clause}")]
    Unlawful { clause: u16 },
    /// It is one, and does not keep to the script: the first rule that it breaks.
    #[error("the entry does not keep to the script")]
    Broken { rule: Rule },
    /// Memory was asked for and refused, or a counter stands at its last value. The checker may have
    /// taken in a part of the entry: it is good only to be dropped.
    #[error("no memory")]
    NoMemory,
}

impl From<NoMemory> for CheckFault {
    ghost use Rattle.std.specs.Prelude.{◌≡◌};
    ghost use Rattle.qs_book_check.specs.declared.fault.CheckFault.TheVariants as faults;

    ghost from_gives = { λ _ fault. fault ≡ faults.NoMemory };

    fn from(_error: NoMemory) -> CheckFault {
        CheckFault::NoMemory
    }
}
