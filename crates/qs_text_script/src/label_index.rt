//! Who began and who took the transactions of a script, by their labels.
ghost use Rattle.std.specs.Prelude.{◌≡◌, List, ℕ, [], ◌&&◌, ◌||◌, not, OnOk};
ghost use Rattle.qs_text_script.specs.Users.{has_client, nobody, with_user, users_of, with_user_of, is_begun_by};

use qs_base::{Bytes, ClientNo, Copied, List, NoMemory};
use qs_book_journal::{Command, ScriptLine};
use std::alloc::Global;
use std::collections::BTreeMap;

/// The clients that use the transaction of a label.
#[derive(Drop)]
pub struct Users {
    /// Those that began it.
    pub owners: List<ClientNo>,
    /// Those that took it, each once.
    pub takers: List<ClientNo>,
}

/// The users of each label that was begun or taken.
#[derive(Drop)]
pub struct LabelIndex {
    /// Them, by the label.
    pub users: BTreeMap<Bytes, Users>,
}

/// Whether the client is one of these.
fn has_client(clients: &[ClientNo], client: ClientNo) -> bool
    ensures { result ≡ has_client client.0 clients.now }
{
    clients.iter().any(|one| one.0 == client.0)
}

impl Users {
    /// No clients. It takes no memory.
    fn new(alloc: Global) -> Users
        ensures { result ≡ nobody }
    {
        Users {
            owners: List::new(alloc),
            takers: List::new(alloc),
        }
    }

    /// Takes in the client of a command that begins or takes the transaction.
    fn add(&mut self, line: &ScriptLine) -> Result<(), NoMemory>
        ensures { OnOk result (self.new ≡ with_user line.now self.old) }
    {
        match line.command {
            Command::Begin => self.owners.push(line.client),
            Command::Take if !self.has_taker(line.client) => self.takers.push(line.client),
            _ => Ok(()),
        }
    }

    fn is_begun(&self) -> bool
        ensures { result ≡ is_begun_by self.now }
    {
        !self.owners.is_empty()
    }

    fn has_owner(&self, client: ClientNo) -> bool
        ensures { result ≡ has_client client.0 self.now.owners }
    {
        has_client(self.owners.as_slice(), client)
    }

    fn has_taker(&self, client: ClientNo) -> bool
        ensures { result ≡ has_client client.0 self.now.takers }
    {
        has_client(self.takers.as_slice(), client)
    }
}

impl LabelIndex {
    /// Of no command. It takes no memory.
    pub fn new(alloc: Global) -> LabelIndex
        ensures { result.users.entries ≡ [] }
    {
        LabelIndex {
            users: BTreeMap::new(alloc),
        }
    }

    /// Whether some client began the label.
    pub fn is_begun(&self, label: &Bytes) -> bool
        ensures { result ≡ is_begun_by (users_of label.now self.now.users.entries) }
    {
        match self.users.get(label) {
            Some(users) => users.is_begun(),
            None => false,
        }
    }

    /// Whether the client began the label.
    pub fn is_owner(&self, client: ClientNo, label: &Bytes) -> bool
        ensures { result ≡ has_client client.0 (users_of label.now self.now.users.entries).owners }
    {
        match self.users.get(label) {
            Some(users) => users.has_owner(client),
            None => false,
        }
    }

    /// Whether the client took the label.
    pub fn is_taker(&self, client: ClientNo, label: &Bytes) -> bool
        ensures { result ≡ has_client client.0 (users_of label.now self.now.users.entries).takers }
    {
        match self.users.get(label) {
            Some(users) => users.has_taker(client),
            None => false,
        }
    }

    /// Whether the client began or took the label.
    pub fn is_user(&self, client: ClientNo, label: &Bytes) -> bool
        ensures { result ≡ (has_client client.0 (users_of label.now self.now.users.entries).owners || has_client client.0 (users_of label.now self.now.users.entries).takers) }
    {
        match self.users.get(label) {
            Some(users) => users.has_owner(client) || users.has_taker(client),
            None => false,
        }
    }

    /// Whether the label was begun, and not by this client.
    pub fn is_of_another(&self, client: ClientNo, label: &Bytes) -> bool
        ensures { result ≡ (is_begun_by (users_of label.now self.now.users.entries) && not (has_client client.0 (users_of label.now self.now.users.entries).owners)) }
    {
        match self.users.get(label) {
            Some(users) => users.is_begun() && !users.has_owner(client),
            None => false,
        }
    }

    /// Takes in the client of a command that begins or takes its label. After a refusal nothing is
    /// said of the users.
    pub fn add(&mut self, alloc: Global, line: &ScriptLine) -> Result<(), NoMemory>
        ensures { OnOk result (self.new.users.entries ≡ with_user_of line.now self.old.users.entries) }
    {
        let nobody = Users::new(alloc);
        let users = self.users.entry(line.label.copy()?)?.or_insert(nobody);
        users.add(line)
    }
}
