//! Bytes that stand for a node, a server or a change.
ghost use Rattle.std.specs.Prelude.{◌≡◌, true, IfOk};
ghost use Rattle.qs_codec.specs.Grammar.{Byte};
ghost use Rattle.qs_codec.specs.Reading.{Reads};
ghost use Rattle.qs_record.specs.Grammar.{is_node, is_server};
ghost use Rattle.qs_record.specs.Reading.{Finds, byte_where, is_node_from, is_change_tag};

use crate::place::tested;
use qs_codec::{CodecFault, Reader};

// A byte that is a node.
#[tactic(auto, unfolding(crate::specs::Reading::byte_where))]
pub(crate) fn take_node(reader: &mut Reader<'_>) -> Result<u8, CodecFault>
    ensures exact { Finds result reader.new (byte_where is_node reader.old) }
    ensures value { IfOk result (λ n. Reads (Byte n) reader.old reader.new) }
    ensures holds { IfOk result (λ n. is_node n ≡ true) }
{
    let before = reader.ahead();
    let node = reader.u8()?;
    tested(&before, node, node < 16)
}

// A byte that is a node at or above the least that may come.
#[tactic(auto, unfolding(crate::specs::Reading::byte_where))]
pub(crate) fn take_node_from(reader: &mut Reader<'_>, least: u8) -> Result<u8, CodecFault>
    ensures exact { Finds result reader.new (byte_where (is_node_from least) reader.old) }
    ensures value { IfOk result (λ n. Reads (Byte n) reader.old reader.new) }
    ensures holds { IfOk result (λ n. is_node_from least n ≡ true) }
{
    let before = reader.ahead();
    let node = reader.u8()?;
    tested(&before, node, is_node_from(least, node))
}

// A byte that is a server of a node, or a borrower.
#[tactic(auto, unfolding(crate::specs::Reading::byte_where))]
pub(crate) fn take_server(reader: &mut Reader<'_>) -> Result<u8, CodecFault>
    ensures exact { Finds result reader.new (byte_where is_server reader.old) }
    ensures value { IfOk result (λ n. Reads (Byte n) reader.old reader.new) }
    ensures holds { IfOk result (λ n. is_server n ≡ true) }
{
    let before = reader.ahead();
    let server = reader.u8()?;
    tested(&before, server, is_server(server))
}

// A byte that is the tag of a change.
#[tactic(auto, unfolding(crate::specs::Reading::byte_where))]
pub(crate) fn take_change_tag(reader: &mut Reader<'_>) -> Result<u8, CodecFault>
    ensures exact { Finds result reader.new (byte_where is_change_tag reader.old) }
    ensures value { IfOk result (λ n. Reads (Byte n) reader.old reader.new) }
    ensures holds { IfOk result (λ n. is_change_tag n ≡ true) }
{
    let before = reader.ahead();
    let tag = reader.u8()?;
    tested(&before, tag, is_change_tag(tag))
}

fn is_node_from(least: u8, node: u8) -> bool
    ensures { result ≡ is_node_from least node }
{
    least <= node && node < 16
}

fn is_server(server: u8) -> bool
    ensures { result ≡ is_server server }
{
    server <= 6 || (32..=95).contains(&server)
}

fn is_change_tag(tag: u8) -> bool
    ensures { result ≡ is_change_tag tag }
{
    matches!(tag, 1 | 2 | 3 | 6 | 8 | 10 | 12 | 14 | 17)
}
