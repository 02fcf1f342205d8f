//! Commands of clients, as scripts, clients and nodes share them.

use qs_base::{Bytes, ClientNo, Copied, Member, NoMemory};
use qs_ops::{Answer, Op};

/// A client's command, with the line of the script at which it stands, from 1.
#[derive(Debug, Drop)]
pub struct ScriptLine {
    pub client: ClientNo,
    pub line: u32,
    pub label: Bytes,
    pub command: Command,
}

/// What a client commands for the transaction of its label.
#[derive(Debug, Drop)]
pub enum Command {
    Begin,
    Commit,
    Abort,
    Take,
    Yield,
    /// An operation at a server of a node.
    Request { member: Member, op: Op },
}

impl Copied for ScriptLine {
    fn copy(&self) -> Result<Self, NoMemory> {
        Ok(ScriptLine {
            client: self.client,
            line: self.line,
            label: self.label.copy()?,
            command: self.command.copy()?,
        })
    }
}

impl Copied for Command {
    fn copy(&self) -> Result<Self, NoMemory> {
        Ok(match self {
            Command::Begin => Command::Begin,
            Command::Commit => Command::Commit,
            Command::Abort => Command::Abort,
            Command::Take => Command::Take,
            Command::Yield => Command::Yield,
            Command::Request { member, op } => Command::Request {
                member: *member,
                op: op.copy()?,
            },
        })
    }
}

/// The answer to the command at a line.
#[derive(Drop)]
pub struct LineAnswer {
    pub line: u32,
    pub answer: Answer,
}

/// The place in a run that a fault line of the script names: before or after the step that makes
/// the first entry of this kind for the transaction of this label.
#[derive(Drop)]
pub struct Point {
    pub after: bool,
    pub kind: PointKind,
    pub label: Bytes,
}

/// The kinds of entries that a point may name.
#[derive(Clone, Copy)]
pub enum PointKind {
    Serve,
    Vote,
    Decide,
    Learn,
}
