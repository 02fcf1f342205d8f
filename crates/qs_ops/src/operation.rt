//! What a client may ask of a server.
ghost use Rattle.std.specs.Prelude.{◌≡◌, IfOk};
ghost use Rattle.qs_ops.specs.Operations.{server_of, borrower};

use crate::servers::{AUDIT, EXTRA, FILES, FIRST_CLIENT, NAMES, SCRATCH, TIMERS, WINDOWS};
use qs_base::{Bytes, ClientNo, Copied, List, NoMemory, ServerNo};

/// An operation. Names have 1 to 64 bytes, texts 1 to 4,096, ticks are at most 1,000,000.
#[derive(Debug, Drop, PartialEq, Eq)]
pub enum Op {
    /// Files: the file has this text from now on.
    Put { name: Bytes, text: Bytes },
    /// Files: the text is added at the file's end; the file is made where it is absent.
    Append { name: Bytes, text: Bytes },
    /// Files: the file is removed.
    Del { name: Bytes },
    /// Files: the file's text.
    Get { name: Bytes },
    /// Files: the names of all files, in byte order.
    Listing,
    /// Audit: the text is added at the end of the notes.
    Note { text: Bytes },
    /// Audit: all notes in order.
    Notes,
    /// Names: the name is bound to the text.
    Bind { name: Bytes, text: Bytes },
    /// Names: the text that the name is bound to.
    Find { name: Bytes },
    /// Timers: the name's timer runs for so many ticks of its node.
    Timer { name: Bytes, ticks: u32 },
    /// Timers: the ticks that are left.
    Left { name: Bytes },
    /// Windows: the window of this name has this title.
    Window { name: Bytes, text: Bytes },
    /// Windows: the window's title.
    Title { name: Bytes },
    /// Scratch: the text is kept under the name.
    Keep { name: Bytes, text: Bytes },
    /// Scratch: the text that is kept under the name.
    Fetch { name: Bytes },
    /// A client as borrower: the transaction is lent to it.
    Lend { client: ClientNo },
    /// The further server: an operation of its own.
    Extra { code: u32, text: Bytes },
}

/// Operations that change a server's state, in the order in which they were served.
pub type Changes = List<Op>;

impl Copied for Op {
    fn copy(&self) -> Result<Self, NoMemory> {
        Ok(match self {
            Op::Put { name, text } => Op::Put {
                name: name.copy()?,
                text: text.copy()?,
            },
            Op::Append { name, text } => Op::Append {
                name: name.copy()?,
                text: text.copy()?,
            },
            Op::Del { name } => Op::Del { name: name.copy()? },
            Op::Get { name } => Op::Get { name: name.copy()? },
            Op::Listing => Op::Listing,
            Op::Note { text } => Op::Note { text: text.copy()? },
            Op::Notes => Op::Notes,
            Op::Bind { name, text } => Op::Bind {
                name: name.copy()?,
                text: text.copy()?,
            },
            Op::Find { name } => Op::Find { name: name.copy()? },
            Op::Timer { name, ticks } => Op::Timer {
                name: name.copy()?,
                ticks: *ticks,
            },
            Op::Left { name } => Op::Left { name: name.copy()? },
            Op::Window { name, text } => Op::Window {
                name: name.copy()?,
                text: text.copy()?,
            },
            Op::Title { name } => Op::Title { name: name.copy()? },
            Op::Keep { name, text } => Op::Keep {
                name: name.copy()?,
                text: text.copy()?,
            },
            Op::Fetch { name } => Op::Fetch { name: name.copy()? },
            Op::Lend { client } => Op::Lend { client: *client },
            Op::Extra { code, text } => Op::Extra {
                code: *code,
                text: text.copy()?,
            },
        })
    }
}

/// The server whose operation it is, and for a loan to a client the client as borrower; `None` for
/// a loan to a client that no server number stands for, 224 or above.
pub fn server_of(op: &Op) -> Option<ServerNo>
    ensures { result ≡ server_of op.now }
{
    Some(match op {
        Op::Put { .. } | Op::Append { .. } | Op::Del { .. } | Op::Get { .. } | Op::Listing => FILES,
        Op::Note { .. } | Op::Notes => AUDIT,
        Op::Bind { .. } | Op::Find { .. } => NAMES,
        Op::Timer { .. } | Op::Left { .. } => TIMERS,
        Op::Window { .. } | Op::Title { .. } => WINDOWS,
        Op::Keep { .. } | Op::Fetch { .. } => SCRATCH,
        Op::Extra { .. } => EXTRA,
        Op::Lend { client } => return borrower(*client),
    })
}

/// Clients from this number on have no server number.
const CLIENTS_WITH_NUMBER: u8 = 224;

/// The server number of a client as borrower.
fn borrower(client: ClientNo) -> Option<ServerNo>
    ensures { result ≡ borrower client.0 }
{
    if client.0 < CLIENTS_WITH_NUMBER {
        Some(ServerNo(FIRST_CLIENT.0 + client.0))
    } else {
        None
    }
}
