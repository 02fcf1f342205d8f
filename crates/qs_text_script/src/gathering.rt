//! The script that the lines read so far make, and whether a line may follow them.
ghost use Rattle.std.specs.Prelude.{◌≡◌, ◌∷◌, [], ◌++◌, ◌+◌, ◌^◌, ◌<◌, List, ℕ, find, OnOk};
ghost use Rattle.std.specs.List.{list_any};
ghost use Rattle.std.specs.Option.{option_copied};
ghost use Rattle.qs_ops.specs.Operations.{server_of};
ghost use Rattle.qs_ops.specs.declared.operation.Op.TheVariants as ops;
ghost use Rattle.qs_text_script.specs.Clashes.{clashes_with};
ghost use Rattle.qs_text_script.specs.Indexes.{IsIndexed};
ghost use Rattle.qs_text_script.specs.Rules.{sits, is_client, is_begun, is_owner, is_taker, may_use, is_node, is_link, names_point, names_fault, may_take, names_request, names_order, names_command, may_borrow, names_loan, loan_line, is_known, is_limited, is_again, fits, broken_rule, fault_of, empty_script, with_line};
ghost use Rattle.qs_text_script.specs.Users.{users_after, users_of};

use crate::clashing::clashes;
use crate::command::is_begin;
use crate::label_index::LabelIndex;
use crate::limits::fits;
use qs_base::{Bytes, ClientNo, List, Member, NoMemory, NodeNo};
use qs_book_journal::{Command, ScriptLine};
use qs_book_script::{FaultLine, Planned, Quota, Script, ScriptFault, Seat, Statement};
use qs_ops::{Op, server_of};
use std::alloc::Global;

/// A script, line by line.
#[derive(Drop)]
pub struct Gathered {
    /// The script of the lines so far.
    pub script: Script,
    /// Who began and who took each label.
    pub labels: LabelIndex,
}

/// The script of no line.
fn empty_script(alloc: Global) -> Script
    ensures { result ≡ empty_script }
{
    Script {
        seats: List::new(alloc),
        quotas: List::new(alloc),
        audit: None,
        faults: List::new(alloc),
        lines: List::new(alloc),
        count: 0,
    }
}

/// The seat of a client.
fn seat_of(seats: &[Seat], client: ClientNo) -> Option<Seat>
    ensures { result ≡ find (sits client.0) seats.now }
{
    seat_copied(find_seat(seats, client))
}

fn find_seat(seats: &[Seat], client: ClientNo) -> Option<&Seat>
    ensures { option_copied result ≡ find (sits client.0) seats.now }
{
    seats.iter().find(|seat| seat.client.0 == client.0)
}

fn seat_copied(seat: Option<&Seat>) -> Option<Seat>
    ensures { result ≡ option_copied seat.entry }
{
    match seat {
        Some(seat) => Some(*seat),
        None => None,
    }
}

/// Whether the client has a seat.
fn is_client(seats: &[Seat], client: ClientNo) -> bool
    ensures { result ≡ is_client seats.now client.0 }
{
    seats.iter().any(|seat| seat.client.0 == client.0)
}

/// Whether the node is one of so many.
fn is_node(nodes: u8, node: NodeNo) -> bool
    ensures { result ≡ is_node nodes node }
{
    node.0 < nodes
}

/// Whether a link leads from one node to the other.
fn is_link(nodes: u8, from: NodeNo, to: NodeNo) -> bool
    ensures { result ≡ is_link nodes from to }
{
    is_node(nodes, from) && is_node(nodes, to) && from.0 != to.0
}

/// Whether the node has a quota.
fn has_quota(quotas: &[Quota], node: NodeNo) -> bool
    ensures { result ≡ list_any (is_limited node.0) quotas.now }
{
    quotas.iter().any(|quota| quota.node.0 == node.0)
}

/// Whether one of the faults clashes with this one.
fn has_clash(faults: &[FaultLine], fault: &Planned) -> bool
    ensures { result ≡ list_any (clashes_with fault.now) faults.now }
{
    faults.iter().any(|line| clashes(fault, &line.fault))
}

impl Gathered {
    /// Before the first line. It takes no memory.
    pub fn new(alloc: Global) -> Gathered
        ensures script { result.script ≡ empty_script }
        ensures indexed { IsIndexed result }
    {
        Gathered {
            script: empty_script(alloc),
            labels: LabelIndex::new(alloc),
        }
    }

    fn is_owner(&self, client: ClientNo, label: &Bytes) -> bool
        requires { IsIndexed self.now }
        ensures { result ≡ is_owner self.now.script.lines client.0 label.now }
    {
        self.labels.is_owner(client, label)
    }

    fn is_taker(&self, client: ClientNo, label: &Bytes) -> bool
        requires { IsIndexed self.now }
        ensures { result ≡ is_taker self.now.script.lines client.0 label.now }
    {
        self.labels.is_taker(client, label)
    }

    fn is_begun(&self, label: &Bytes) -> bool
        requires { IsIndexed self.now }
        ensures { result ≡ is_begun self.now.script.lines label.now }
    {
        self.labels.is_begun(label)
    }

    fn may_use(&self, client: ClientNo, label: &Bytes) -> bool
        requires { IsIndexed self.now }
        ensures { result ≡ may_use self.now.script.lines client.0 label.now }
    {
        self.labels.is_user(client, label)
    }

    fn may_take(&self, client: ClientNo, label: &Bytes) -> bool
        requires { IsIndexed self.now }
        ensures { result ≡ may_take self.now.script.lines client.0 label.now }
    {
        self.labels.is_of_another(client, label)
    }

    fn names_point(&self, nodes: u8, node: NodeNo, label: &Bytes) -> bool
        requires { IsIndexed self.now }
        ensures { result ≡ names_point nodes self.now.script.lines node label.now }
    {
        is_node(nodes, node) && self.is_begun(label)
    }

    fn names_fault(&self, nodes: u8, fault: &Planned) -> bool
        requires { IsIndexed self.now }
        ensures { result ≡ names_fault nodes self.now.script.lines fault.now }
    {
        match fault {
            Planned::Crash { node, .. } => is_node(nodes, *node),
            Planned::Stop { node, .. } => is_node(nodes, *node),
            Planned::At { node, point } => self.names_point(nodes, *node, &point.label),
            Planned::Drop { from, to, .. } => is_link(nodes, *from, *to),
            Planned::Again { from, to, .. } => is_link(nodes, *from, *to),
            Planned::Hold { from, to, .. } => is_link(nodes, *from, *to),
        }
    }

    fn names_request(&self, nodes: u8, client: ClientNo, label: &Bytes, member: Member) -> bool
        requires { IsIndexed self.now }
        ensures { result ≡ names_request nodes self.now.script.lines client.0 label.now member }
    {
        is_node(nodes, member.node) && self.may_use(client, label)
    }

    fn names_order(&self, nodes: u8, client: ClientNo, label: &Bytes, command: &Command) -> bool
        requires { IsIndexed self.now }
        ensures { result ≡ names_order nodes self.now.script.lines client.0 label.now command.now }
    {
        match command {
            Command::Begin => true,
            Command::Commit => self.is_owner(client, label),
            Command::Abort => self.is_owner(client, label),
            Command::Take => self.may_take(client, label),
            Command::Yield => self.is_taker(client, label),
            Command::Request { member, .. } => self.names_request(nodes, client, label, *member),
        }
    }

    /// Whether the client is known, and what its command names.
    fn names_command(&self, nodes: u8, client: ClientNo, label: &Bytes, command: &Command) -> bool
        requires { IsIndexed self.now }
        ensures { result ≡ names_command nodes self.now.script client.0 label.now command.now }
    {
        is_client(self.script.seats.as_slice(), client)
            && self.names_order(nodes, client, label, command)
    }

    /// Whether the borrower is known, and neither the lender nor the owner.
    fn may_borrow(&self, client: ClientNo, label: &Bytes, to: ClientNo) -> bool
        requires { IsIndexed self.now }
        ensures { result ≡ may_borrow self.now.script client.0 label.now to.0 }
    {
        is_client(self.script.seats.as_slice(), to) && to.0 != client.0 && !self.is_owner(to, label)
    }

    /// Whether the lender is known and uses the label, and the borrower may borrow it.
    fn names_loan(&self, client: ClientNo, label: &Bytes, to: ClientNo) -> bool
        requires { IsIndexed self.now }
        ensures { result ≡ names_loan self.now.script client.0 label.now to.0 }
    {
        is_client(self.script.seats.as_slice(), client)
            && self.may_use(client, label)
            && self.may_borrow(client, label, to)
    }

    /// Whether what the line names is known.
    fn is_known(&self, nodes: u8, statement: &Statement) -> bool
        requires { IsIndexed self.now }
        ensures { result ≡ is_known nodes self.now.script statement.now }
    {
        match statement {
            Statement::Nothing => true,
            Statement::Seated { seat } => is_node(nodes, seat.node),
            Statement::Limited { quota } => is_node(nodes, quota.node),
            Statement::Audited { node } => is_node(nodes, *node),
            Statement::Fault { fault } => self.names_fault(nodes, fault),
            Statement::Order {
                client,
                label,
                command,
            } => self.names_command(nodes, *client, label, command),
            Statement::Lend { client, label, to } => self.names_loan(*client, label, *to),
            Statement::Unreadable { .. } => true,
        }
    }

    /// Whether the line says what an earlier one said.
    fn is_again(&self, statement: &Statement) -> bool
        requires { IsIndexed self.now }
        ensures { result ≡ is_again self.now.script statement.now }
    {
        match statement {
            Statement::Seated { seat } => is_client(self.script.seats.as_slice(), seat.client),
            Statement::Limited { quota } => has_quota(self.script.quotas.as_slice(), quota.node),
            Statement::Audited { .. } => self.script.audit.is_some(),
            Statement::Fault { fault } => has_clash(self.script.faults.as_slice(), fault),
            Statement::Order { label, command, .. } => is_begin(command) && self.is_begun(label),
            _ => false,
        }
    }

    /// The first rule that the line breaks behind those before it.
    fn broken_rule(&self, nodes: u8, statement: &Statement) -> Option<ScriptFault>
        requires { IsIndexed self.now }
        ensures { result ≡ broken_rule nodes self.now.script statement.now }
    {
        if !self.is_known(nodes, statement) {
            Some(ScriptFault::Unknown)
        } else if self.is_again(statement) {
            Some(ScriptFault::Twice)
        } else if !fits(&self.script, statement) {
            Some(ScriptFault::Limit)
        } else {
            None
        }
    }

    /// The fault of the next line, if it has one.
    pub fn fault_of(&self, nodes: u8, statement: &Statement) -> Option<ScriptFault>
        requires { IsIndexed self.now }
        ensures { result ≡ fault_of nodes self.now.script statement.now }
    {
        match statement {
            Statement::Unreadable { fault } => Some(*fault),
            _ => self.broken_rule(nodes, statement),
        }
    }

    /// Takes in the label of a command that is to follow. After a refusal nothing is said of the
    /// index.
    fn index(&mut self, alloc: Global, line: &ScriptLine) -> Result<(), NoMemory>
        ensures script { self.new.script ≡ self.old.script }
        ensures labels { OnOk result ((label : List ℕ) → users_of label self.new.labels.users.entries ≡ users_after label line.now (users_of label self.old.labels.users.entries)) }
    {
        match line.command {
            Command::Begin | Command::Take => self.labels.add(alloc, line),
            _ => Ok(()),
        }
    }

    /// Takes in a command. After a refusal nothing is said of it.
    fn push(&mut self, alloc: Global, line: ScriptLine) -> Result<(), NoMemory>
        requires { IsIndexed self.old }
        ensures script { OnOk result (self.new.script ≡ record self.old.script { lines = self.old.script.lines ++ line ∷ [] }) }
        ensures indexed { OnOk result (IsIndexed self.new) }
    {
        self.index(alloc, &line)?;
        self.script.lines.push(line)
    }

    /// Takes in a loan, to the borrower at the node where it sits.
    fn lend(
        &mut self,
        alloc: Global,
        client: ClientNo,
        label: Bytes,
        to: ClientNo,
    ) -> Result<(), NoMemory>
        requires { IsIndexed self.old }
        ensures script { OnOk result (self.new.script ≡ record self.old.script { lines = self.old.script.lines ++ loan_line (find (sits to.0) self.old.script.seats) (server_of (ops.Lend to)) client label to self.old.script.count }) }
        ensures indexed { OnOk result (IsIndexed self.new) }
    {
        let op = Op::Lend { client: to };
        let (Some(seat), Some(server)) = (seat_of(self.script.seats.as_slice(), to), server_of(&op))
        else {
            return Ok(());
        };
        let member = Member {
            node: seat.node,
            server,
        };
        let line = self.script.count;
        self.push(
            alloc,
            ScriptLine {
                client,
                line,
                label,
                command: Command::Request { member, op },
            },
        )
    }

    /// Takes in what the next line says. After a refusal nothing is said of it.
    pub fn take(&mut self, alloc: Global, statement: Statement) -> Result<(), NoMemory>
        requires indexed { IsIndexed self.old }
        requires count { self.old.script.count + 1 < 2 ^ 32 }
        ensures script { OnOk result (self.new.script ≡ with_line self.old.script statement) }
        ensures indexed { OnOk result (IsIndexed self.new) }
    {
        self.script.count += 1;
        let line = self.script.count;
        match statement {
            Statement::Nothing | Statement::Unreadable { .. } => Ok(()),
            Statement::Seated { seat } => self.script.seats.push(seat),
            Statement::Limited { quota } => self.script.quotas.push(quota),
            Statement::Audited { node } => {
                self.script.audit = Some(node);
                Ok(())
            }
            Statement::Fault { fault } => self.script.faults.push(FaultLine { line, fault }),
            Statement::Order {
                client,
                label,
                command,
            } => self.push(
                alloc,
                ScriptLine {
                    client,
                    line,
                    label,
                    command,
                },
            ),
            Statement::Lend { client, label, to } => self.lend(alloc, client, label, to),
        }
    }
}
