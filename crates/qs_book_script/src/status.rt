//! How a run ends.
ghost use Rattle.std.specs.Prelude.{◌≡◌};
ghost use Rattle.qs_book_script.specs.Status.{status_number};

use qs_base::{ClientNo, List, NodeNo};

/// How a run ended.
#[derive(Drop)]
pub enum Status {
    /// Every script ended, and no transaction is unended.
    Finished,
    /// The words are of no form.
    Usage,
    /// The script has a fault at that line, the first one.
    Script { line: u32, fault: ScriptFault },
    /// The source failed.
    ReadFault,
    /// The sink failed.
    WriteFault,
    /// The disk of that node failed as it was opened.
    DiskFault { node: NodeNo },
    /// The disk of that node holds no log, as byte `at` shows.
    Damaged { node: NodeNo, at: u64 },
    /// After so many rounds these clients had commands that were not answered.
    Unfinished { rounds: u64, waiting: List<Waiting> },
    /// Memory was asked for and refused.
    NoMemory,
    /// The log of that node does not fit: it needs `need` bytes, above the room `room`.
    NoRoom { node: NodeNo, need: u64, room: u64 },
    /// The journal that was read breaks that clause at that line.
    Unlawful { line: u32, clause: u16 },
    /// The text that was read is no journal, as that line shows.
    Journal { line: u32 },
    /// The log of that node stands at the last generation.
    LastGeneration { node: NodeNo },
}

/// A client whose script has not ended, and the line that it stands at.
#[derive(Clone, Copy)]
pub struct Waiting {
    pub client: ClientNo,
    pub line: u32,
}

/// What is wrong with a script.
#[derive(Clone, Copy, Debug)]
pub enum ScriptFault {
    /// The text is too long.
    TooLarge,
    /// A byte is neither printable nor a line feed.
    BadByte,
    /// A word is none that may stand there.
    BadWord,
    /// The line has too few or too many words.
    BadCount,
    /// A client, node or label is not known there.
    Unknown,
    /// The same was said before.
    Twice,
    /// A number, name or text is too great.
    Limit,
    /// A transaction is begun and neither committed nor aborted later.
    Open,
}

impl Status {
    /// The number that the program ends with.
    pub fn number(&self) -> u8
        ensures { result ≡ status_number self.now }
    {
        match self {
            Status::Finished => 0,
            Status::Usage => 2,
            Status::Script { .. } => 3,
            Status::ReadFault => 4,
            Status::WriteFault => 5,
            Status::DiskFault { .. } => 6,
            Status::Damaged { .. } => 7,
            Status::Unfinished { .. } => 8,
            Status::NoMemory => 9,
            Status::NoRoom { .. } => 10,
            Status::Unlawful { .. } => 11,
            Status::Journal { .. } => 12,
            Status::LastGeneration { .. } => 13,
        }
    }
}
