//! A script that was read.

use qs_base::{ClientNo, List, NodeNo};
use qs_book_journal::{Point, ScriptLine};

/// A script.
#[derive(Drop)]
pub struct Script {
    /// The clients, each with its node, in the order of their lines.
    pub seats: List<Seat>,
    /// The quotas that were set, in the order of their lines.
    pub quotas: List<Quota>,
    /// The node that keeps the audit notes.
    pub audit: Option<NodeNo>,
    /// The faults that are to come, in the order of their lines.
    pub faults: List<FaultLine>,
    /// The clients' commands, in the order of their lines.
    pub lines: List<ScriptLine>,
    /// How many lines the text has: its line feeds, and one more where a byte stands after the
    /// last of them.
    pub count: u32,
}

/// A client sits at a node.
#[derive(Clone, Copy, Debug)]
pub struct Seat {
    pub client: ClientNo,
    pub node: NodeNo,
}

/// The files of a node may have so many bytes together.
#[derive(Clone, Copy)]
pub struct Quota {
    pub node: NodeNo,
    pub bytes: u64,
}

/// A fault that is to come, and the line that asks for it.
#[derive(Drop)]
pub struct FaultLine {
    pub line: u32,
    pub fault: Planned,
}

/// A fault that a script asks for. Events, disk calls and packets count from 1.
#[derive(Drop)]
pub enum Planned {
    /// The node stops in place of that event.
    Crash {
        node: NodeNo,
        event: u64,
    },
    /// That disk call of the node after its opening trips.
    Stop {
        node: NodeNo,
        call: u64,
    },
    /// The node stops before or after a step.
    At {
        node: NodeNo,
        point: Point,
    },
    /// That packet is lost.
    Drop {
        from: NodeNo,
        to: NodeNo,
        packet: u64,
    },
    /// That packet is sent twice.
    Again {
        from: NodeNo,
        to: NodeNo,
        packet: u64,
    },
    /// That packet is sent after so many further ones.
    Hold {
        from: NodeNo,
        to: NodeNo,
        packet: u64,
        count: u64,
    },
}
