//! Why an operation is refused.
ghost use Rattle.std.specs.Prelude.{◌≡◌};
ghost use Rattle.qs_book_tables.specs.Refusals.{refusal_reply};

use qs_base::Tid;
use qs_ops::Reply;

/// The first refusal that holds.
#[derive(Clone, Copy)]
pub enum RequestRefusal {
    /// The transaction had 1,024 operations served.
    Full,
    /// That other transaction holds the name.
    Held(Tid),
}

impl RequestRefusal {
    /// The reply that says it.
    pub fn reply(self) -> Reply
        ensures { result ≡ refusal_reply self }
    {
        match self {
            RequestRefusal::Full => Reply::TooMany,
            RequestRefusal::Held(holder) => Reply::Busy { holder },
        }
    }
}
