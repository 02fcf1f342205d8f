//! The requests that one link carries under one number.
ghost use Rattle.std.specs.Prelude.{◌≡◌, ℕ, [], ◌∷◌, ◌++◌, length, take, IfOk, OnOk, OnErr};
ghost use Rattle.std.specs.Option.{option_copied};
ghost use Rattle.std.specs.List.{list_all, find, position};
ghost use Rattle.qs_book_machine.specs.Transaction.{is_standing};

use qs_base::{Member, NoMemory};
use qs_book_machine::Request;
use std::alloc::Global;
use std::marker::Model;

/// Requests in the order of their issues.
#[derive(Drop)]
pub struct Requests {
    items: Vec<Request>,
}

impl Model for Requests {
    ghost use Rattle.std.specs.Prelude.{List};
    ghost use Rattle.qs_book_machine.specs.declared.transaction.Request.{Request};

    ghost Value = { List Request };

    ghost view = { λ r. r.items.items };
}

impl Requests {
    ghost use Rattle.qs_book_machine.specs.Transaction.{is_served, mark_served};

    /// A list of one request.
    pub fn one(alloc: Global, request: Request) -> Result<Requests, NoMemory>
        ensures { IfOk result (λ r. r ≡ request ∷ []) }
    {
        let mut items = Vec::new(alloc);
        items.push(request)?;
        Ok(Requests { items })
    }

    /// All of them.
    pub fn as_slice(&self) -> &[Request]
        ensures { result.now ≡ self.now }
    {
        self.items.as_slice()
    }

    /// How many there are.
    pub fn len(&self) -> usize
        ensures { result ≡ length self.now }
    {
        self.items.len()
    }

    /// One more request. After a refusal the list is as it was.
    pub fn push(&mut self, request: Request) -> Result<(), NoMemory>
        ensures ok { OnOk result (self.new ≡ self.old ++ request ∷ []) }
        ensures err { OnErr result (self.new ≡ self.old) }
    {
        self.items.push(request)?;
        Ok(())
    }

    /// Leaves the first `len` requests, or all where there are no more.
    pub fn truncate(&mut self, len: usize)
        ensures { self.new ≡ take len self.old }
    {
        self.items.truncate(len);
    }

    /// Whether all were served.
    pub fn all_served(&self) -> bool
        ensures { result ≡ list_all is_served self.now }
    {
        self.items.iter().all(|request| request.served)
    }

    /// The earliest to that member that was not served.
    pub fn standing(&self, member: Member) -> Option<&Request>
        ensures { option_copied result ≡ find (is_standing member) self.now }
    {
        self.items
            .iter()
            .find(|request| is_standing(member, request))
    }

    /// The earliest to that member that was not served is served; nothing where there is none.
    pub fn serve(&mut self, member: Member)
        ensures { self.new ≡ mark_served member self.old }
    {
        if let Some(at) = self.place(member) {
            let request = &mut self.items[at];
            request.served = true;
        }
    }

    fn place(&self, member: Member) -> Option<usize>
        ensures { result ≡ position (is_standing member) self.now }
    {
        self.items
            .iter()
            .position(|request| is_standing(member, request))
    }
}

/// Whether it is a request to that member that was not served.
fn is_standing(member: Member, request: &Request) -> bool
    ensures { result ≡ is_standing member request.now }
{
    request.member == member && !request.served
}
