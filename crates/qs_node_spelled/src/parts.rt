//! Which parts of records and messages have a spelling in bytes.
ghost use Rattle.std.specs.Prelude.{◌≡◌, ◌↔◌, true, ◌<◌, ◌^◌, All};
ghost use Rattle.qs_base.specs.Printable.{IsPrintable};
ghost use Rattle.qs_ops.specs.Spelled.{IsText, IsSpelled};
ghost use Rattle.qs_record.specs.Grammar.{IsTid, IsMember, is_node, is_server, is_rising, AreNodes};

use qs_base::{Bytes, Member, NodeNo, ServerNo, Tid};
use qs_ops::Op;

/// How many nodes a run may have.
const NODE_LIMIT: u8 = 16;

/// Incarnations stand below this.
const INC_LIMIT: u64 = 1 << 62;

/// The most characters of a name.
pub(crate) const NAME_LIMIT: usize = 64;

/// The most characters of an operation's text.
const TEXT_LIMIT: usize = 4096;

/// A node that a run may have.
pub(crate) fn is_node(node: NodeNo) -> bool
    ensures { result ≡ is_node node.0 }
{
    node.0 < NODE_LIMIT
}

/// A number that its eight bytes spell, as an incarnation is.
pub(crate) fn is_number(number: u64) -> bool
    ensures { (result ≡ true) ↔ (number < 2 ^ 62) }
{
    number < INC_LIMIT
}

pub(crate) fn is_tid(tid: Tid) -> bool
    ensures { (result ≡ true) ↔ IsTid tid }
{
    is_node(tid.home) && is_number(tid.inc)
}

pub(crate) fn is_member(member: Member) -> bool
    ensures { (result ≡ true) ↔ IsMember member }
{
    is_node(member.node) && is_server(member.server)
}

/// A server of a node, or a borrower.
pub(crate) fn is_server(server: ServerNo) -> bool
    ensures { result ≡ is_server server.0 }
{
    matches!(server.0, 0..=6 | 32..=95)
}

/// They rise, each a node.
pub(crate) fn are_nodes(nodes: &[NodeNo]) -> bool
    ensures { (result ≡ true) ↔ AreNodes nodes.now }
{
    let mut least = 0;
    for node in nodes {
        if node.0 < least || node.0 >= NODE_LIMIT {
            return false;
        }
        least = node.0 + 1;
    }
    true
}

/// An operation whose name and text keep their limits.
pub(crate) fn is_spelled(op: &Op) -> bool
    ensures { (result ≡ true) ↔ IsSpelled op.now }
{
    match op {
        Op::Put { name, text }
        | Op::Append { name, text }
        | Op::Bind { name, text }
        | Op::Window { name, text }
        | Op::Keep { name, text } => is_text(name, NAME_LIMIT) && is_text(text, TEXT_LIMIT),
        Op::Del { name } | Op::Get { name } | Op::Find { name } | Op::Left { name } => {
            is_text(name, NAME_LIMIT)
        }
        Op::Title { name } | Op::Fetch { name } | Op::Timer { name, .. } => {
            is_text(name, NAME_LIMIT)
        }
        Op::Note { text } | Op::Extra { text, .. } => is_text(text, TEXT_LIMIT),
        Op::Listing | Op::Notes | Op::Lend { .. } => true,
    }
}

/// At most so many printable characters.
pub(crate) fn is_text(text: &Bytes, limit: usize) -> bool
    ensures { (result ≡ true) ↔ IsText limit text.now }
{
    text.len() <= limit && text.as_slice().iter().all(|byte| is_printable(*byte))
}

fn is_printable(byte: u8) -> bool
    ensures { (result ≡ true) ↔ IsPrintable byte }
{
    matches!(byte, b' '..=b'~')
}
