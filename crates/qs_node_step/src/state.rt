//! Parts of what a node keeps, and of what a step of it works on.
ghost use Rattle.std.specs.Prelude.{◌≡◌};
ghost use Rattle.qs_node_step.specs.Settling.{is_put_off, is_quiet};

use qs_base::{Member, Tid};
use qs_book_journal::ScriptLine;

/// The request that a command was issued as.
#[derive(Clone, Copy)]
pub struct Issued {
    pub tid: Tid,
    pub member: Member,
    pub number: u32,
}

/// A client's command that is not answered yet.
#[derive(Drop)]
pub struct OpenCommand {
    pub line: ScriptLine,
    pub issued: Option<Issued>,
}

/// What a step did for a transaction so far.
#[derive(Clone, Copy)]
pub struct Doings {
    /// The owner asked for commit.
    pub asked: bool,
    /// A member served a request.
    pub served: bool,
    /// A member voted.
    pub voted: bool,
    /// A loan was given back.
    pub yielded: bool,
    /// A Prepare was appended, which counts from the next step.
    pub prepared: bool,
}

impl Doings {
    /// A pass waits in a step that asked for the commit or served a request.
    pub fn is_put_off(self) -> bool
        ensures { result ≡ is_put_off self }
    {
        self.asked || self.served
    }

    /// The home decides in no step that asked, served, voted or took a loan back.
    pub fn is_quiet(self) -> bool
        ensures { result ≡ is_quiet self }
    {
        !((self.asked || self.served) || (self.voted || self.yielded))
    }
}
