//! The course of a run: what its script and its journal so far say.
ghost use Rattle.std.specs.Prelude.{◌≡◌, None, OnOk, slice_get};
ghost use Rattle.std.specs.Option.{option_copied};

mod effects;
mod starting;

use crate::client::ClientCourse;
use qs_base::{ClientNo, List, NoMemory, NodeNo};
use qs_book::Book;
use qs_book_conformance::{CommandMade, Mark, NodeCourse, Sought};
use qs_book_journal::{Entry, ScriptLine};
use qs_ops::Reply;
use std::alloc::Global;
use std::collections::BTreeMap;
use std::marker::Model;

/// What the script and the journal so far say, as far as the next entry hangs on it.
#[derive(Drop)]
pub struct Course {
    alloc: Global,
    book: Book,
    audit: Option<NodeNo>,
    clients: Vec<ClientCourse>,
    nodes: Vec<NodeCourse>,
    marks: BTreeMap<Mark, u32>,
    replies: BTreeMap<Sought, List<Reply>>,
}

impl Model for Course {
    ghost use Rattle.qs_book_conformance.specs.Course.{CourseValue};

    ghost Value = { CourseValue };

    ghost view = { λ c. record {
      book = c.book;
      audit = c.audit;
      clients = c.clients.items;
      nodes = c.nodes.items;
      marks = c.marks.entries;
      replies = c.replies.entries;
    } };
}

impl Course {
    ghost use Rattle.qs_book_machine.specs.Lawful.{broken};
    ghost use Rattle.qs_book_conformance.specs.Course.{first_at, made_by, replies_to};
    ghost use Rattle.qs_book_conformance.specs.Effects.{course_after};

    /// Where it takes its memory.
    pub fn alloc(&self) -> Global {
        self.alloc
    }

    /// The reference machine.
    pub fn book(&self) -> &Book
        ensures { result.now ≡ self.now.book }
    {
        &self.book
    }

    /// The node that keeps the audit notes.
    pub fn audit(&self) -> Option<NodeNo>
        ensures { result ≡ self.now.audit }
    {
        self.audit
    }

    /// What is said of a client.
    pub fn client(&self, client: ClientNo) -> Option<&ClientCourse>
        ensures { option_copied result ≡ slice_get self.now.clients client.0 }
    {
        self.clients.get(usize::from(client.0))
    }

    /// The first command of the client that is not answered, where the client sits at this node.
    pub fn first_at(&self, here: NodeNo, client: ClientNo) -> Option<&ScriptLine>
        ensures { option_copied result ≡ first_at self.now here.0 client }
    {
        self.client(client)?.seated_first(here)
    }

    /// What that command has made.
    pub fn made_by(&self, client: ClientNo) -> CommandMade
        ensures { result ≡ made_by self.now client }
    {
        match self.client(client) {
            Some(state) => state.made(),
            None => CommandMade::Nothing,
        }
    }

    /// What is said of a node.
    pub fn node(&self, node: NodeNo) -> Option<&NodeCourse>
        ensures { option_copied result ≡ slice_get self.now.nodes node.0 }
    {
        self.nodes.get(usize::from(node.0))
    }

    /// The replies to a request of a client, since it was issued.
    pub fn replies_to(&self, sought: Sought) -> &[Reply]
        ensures { result.now ≡ replies_to self.now sought }
    {
        match self.replies.get(&sought) {
            Some(replies) => replies.as_slice(),
            None => &[],
        }
    }

    /// Takes a lawful entry in, whether it keeps to the script or not. The only error is a refusal of
    /// memory, for which a count at its end stands too; nothing is then said of the course, which may
    /// have taken in a part of the entry: drop it.
    #[tactic(auto, using(crate::proofs::BookStays::book_of_effects))]
    pub fn take_in(&mut self, entry: &Entry) -> Result<(), NoMemory>
        requires { broken self.old.book entry.now ≡ None }
        ensures { OnOk result (self.new ≡ course_after self.old entry.now) }
    {
        self.line_effect(entry.stamp, entry.node, &entry.act)?;
        self.client_effect(entry.node, &entry.act)?;
        self.book.apply_lawful(entry)
    }
}
