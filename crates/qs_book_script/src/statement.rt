//! What a line of a script says by its words alone.

use crate::script::{Planned, Quota, Seat};
use crate::status::ScriptFault;
use qs_base::{Bytes, ClientNo, NodeNo};
use qs_book_journal::Command;

/// What a line says by its words alone. Numbers may be of any length; one that is past its type is
/// read as the last value of the type, which no limit allows.
#[derive(Drop)]
pub enum Statement {
    /// Nothing: it has no words, or is a remark.
    Nothing,
    /// A client sits at a node.
    Seated {
        seat: Seat,
    },
    /// The files of a node have a quota.
    Limited {
        quota: Quota,
    },
    /// This node keeps the audit notes.
    Audited {
        node: NodeNo,
    },
    /// A fault is to come.
    Fault {
        fault: Planned,
    },
    /// A client commands this for the transaction of this label.
    Order {
        client: ClientNo,
        label: Bytes,
        command: Command,
    },
    /// A client lends the transaction of this label to another.
    Lend {
        client: ClientNo,
        label: Bytes,
        to: ClientNo,
    },
    /// It is no line of a script, whatever stands before it: `BadByte`, `BadWord` or `BadCount`.
    Unreadable {
        fault: ScriptFault,
    },
}
