//! Identifiers, members and lists of nodes written at the end of a list of bytes.
ghost use Rattle.std.specs.Prelude.{◌≡◌, length, take, map, OnOk, OnErr};
ghost use Rattle.qs_record.specs.Grammar.{IsTid, IsMember, AreNodes, SpellsTid, SpellsMember, SpellsNodes, SpellsAll, node_field};
ghost use Rattle.qs_record.specs.Writing.{Adds, Grows};

use qs_base::{List, Member, NoMemory, NodeNo, Tid};
use qs_codec::{put_u8, put_u32, put_u64};

/// Adds an identifier at the end, in 13 bytes. After `NoMemory`, which comes where memory was
/// refused, the list is as it was.
pub fn put_tid(out: &mut List<u8>, tid: Tid) -> Result<(), NoMemory>
    requires { IsTid tid }
    ensures ok { OnOk result (Adds (SpellsTid tid) out.old out.new) }
    ensures err { OnErr result (out.new ≡ out.old) }
{
    let len = out.len();
    let added = add_tid(out, tid);
    settle(out, len, added)
}

/// Adds a member at the end, in two bytes. After `NoMemory`, which comes where memory was refused,
/// the list is as it was.
pub fn put_member(out: &mut List<u8>, member: Member) -> Result<(), NoMemory>
    requires { IsMember member }
    ensures ok { OnOk result (Adds (SpellsMember member) out.old out.new) }
    ensures err { OnErr result (out.new ≡ out.old) }
{
    let len = out.len();
    let added = add_member(out, member);
    settle(out, len, added)
}

/// Adds a list of nodes at the end, in a byte and one for each. After `NoMemory`, which comes where
/// memory was refused, the list is as it was.
pub fn put_nodes(out: &mut List<u8>, nodes: &List<NodeNo>) -> Result<(), NoMemory>
    requires { AreNodes nodes.now }
    ensures ok { OnOk result (Adds (SpellsNodes nodes.now) out.old out.new) }
    ensures err { OnErr result (out.new ≡ out.old) }
{
    let len = out.len();
    let added = add_nodes(out, nodes);
    settle(out, len, added)
}

// After a refusal only the first `len` bytes stay.
pub(crate) fn settle(
    out: &mut List<u8>,
    len: usize,
    added: Result<(), NoMemory>,
) -> Result<(), NoMemory>
    ensures same { result ≡ added }
    ensures ok { OnOk added (out.new ≡ out.old) }
    ensures err { OnErr added (out.new ≡ take len out.old) }
{
    if added.is_err() {
        out.truncate(len);
    }
    added
}

// Adds an identifier, or a front of it where memory is refused.
#[tactic(auto, using(crate::proofs::Writers::tid_added))]
pub(crate) fn add_tid(out: &mut List<u8>, tid: Tid) -> Result<(), NoMemory>
    requires { IsTid tid }
    ensures ok { OnOk result (Adds (SpellsTid tid) out.old out.new) }
    ensures err { OnErr result (Grows out.old out.new) }
{
    put_u8(out, tid.home.0)?;
    put_u64(out, tid.inc)?;
    put_u32(out, tid.seq)
}

// Adds a member, or a front of it where memory is refused.
fn add_member(out: &mut List<u8>, member: Member) -> Result<(), NoMemory>
    requires { IsMember member }
    ensures ok { OnOk result (Adds (SpellsMember member) out.old out.new) }
    ensures err { OnErr result (Grows out.old out.new) }
{
    put_u8(out, member.node.0)?;
    put_u8(out, member.server.0)
}

// Adds a list of nodes, or a front of it where memory is refused.
#[tactic(auto, using(crate::proofs::Nodes::rising_few, crate::proofs::Writers::nodes_added))]
pub(crate) fn add_nodes(out: &mut List<u8>, nodes: &List<NodeNo>) -> Result<(), NoMemory>
    requires { AreNodes nodes.now }
    ensures ok { OnOk result (Adds (SpellsNodes nodes.now) out.old out.new) }
    ensures err { OnErr result (Grows out.old out.new) }
{
    put_u8(out, nodes.len() as u8)?;
    add_each(out, nodes.as_slice())
}

// Adds the nodes themselves, or a front of them where memory is refused.
#[tactic(auto, using(crate::proofs::Writers::adds_none, crate::proofs::Writers::adds_node, crate::proofs::Writers::adds_grows))]
fn add_each(out: &mut List<u8>, nodes: &[NodeNo]) -> Result<(), NoMemory>
    ensures ok { OnOk result (Adds (SpellsAll (map node_field nodes.now)) out.old out.new) }
    ensures err { OnErr result (Grows out.old out.new) }
{
    for node in nodes {
        put_u8(out, node.0)?;
    }
    Ok(())
}
