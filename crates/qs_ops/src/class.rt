//! How members take part in a commit.
ghost use Rattle.std.specs.Prelude.{◌≡◌};
ghost use Rattle.qs_ops.specs.Members.{class_of, is_two_phase, learns_outcome};

use crate::servers::{FIRST_CLIENT, NAMES, SCRATCH, TIMERS, WINDOWS};
use qs_base::{Class, ServerNo};

/// The class of the members of that server number.
pub fn class_of(server: ServerNo) -> Class
    ensures { result ≡ class_of server.0 }
{
    match server {
        NAMES => Class::Volatile,
        TIMERS => Class::Immediate,
        WINDOWS => Class::Standard,
        SCRATCH => Class::Delayed,
        client if client >= FIRST_CLIENT => Class::Activity,
        _ => Class::Recoverable,
    }
}

/// Whether members of that class vote.
pub fn is_two_phase(class: Class) -> bool
    ensures { result ≡ is_two_phase class }
{
    class == Class::Recoverable || class == Class::Volatile
}

/// Whether members of that class are told the outcome itself.
pub fn learns_outcome(class: Class) -> bool
    ensures { result ≡ learns_outcome class }
{
    class != Class::Immediate && class != Class::Activity
}
