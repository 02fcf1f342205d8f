//! Operations written at the end of a list of bytes.
ghost use Rattle.std.specs.Prelude.{◌≡◌, All, OnOk, OnErr};
ghost use Rattle.qs_ops.specs.Spelled.{IsSpelled, IsChange, AreChanges};
ghost use Rattle.qs_record.specs.Grammar.{SpellsAll, SpellsOp, SpellsOps, SpellsChanges, op_fields};
ghost use Rattle.qs_record.specs.Writing.{Adds, Grows};

use crate::op_parts::{add_extra, add_lend, add_pair, add_single, add_tag, add_timer};
use crate::writing::settle;
use qs_base::{List, NoMemory};
use qs_codec::put_u32;
use qs_ops::{Changes, Op};

/// Adds an operation at the end: its tag, and its names, texts and numbers. After `NoMemory`, which
/// comes where memory was refused, the list is as it was.
#[tactic(auto, using(crate::proofs::Writers::op_added, crate::proofs::Writers::grown_front))]
pub fn encode_op(op: &Op, out: &mut List<u8>) -> Result<(), NoMemory>
    requires { IsSpelled op.now }
    ensures ok { OnOk result (Adds (SpellsOp op.now) out.old out.new) }
    ensures err { OnErr result (out.new ≡ out.old) }
{
    let len = out.len();
    let added = add_op(out, op);
    settle(out, len, added)
}

// Adds changes behind their count, or a front of that where memory is refused.
#[tactic(auto, using(crate::proofs::Writers::changes_added))]
pub(crate) fn add_changes(out: &mut List<u8>, changes: &Changes) -> Result<(), NoMemory>
    requires { AreChanges changes.now }
    ensures ok { OnOk result (Adds (SpellsChanges changes.now) out.old out.new) }
    ensures err { OnErr result (Grows out.old out.new) }
{
    put_u32(out, changes.len() as u32)?;
    add_each(out, changes.as_slice())
}

// Adds changes one behind the other, or a front of that where memory is refused.
#[tactic(auto, using(crate::proofs::Writers::adds_none, crate::proofs::Writers::adds_op, crate::proofs::Writers::op_added))]
fn add_each(out: &mut List<u8>, changes: &[Op]) -> Result<(), NoMemory>
    requires { All IsChange changes.now }
    ensures ok { OnOk result (Adds (SpellsOps changes.now) out.old out.new) }
    ensures err { OnErr result (Grows out.old out.new) }
{
    for op in changes {
        add_op(out, op)?;
    }
    Ok(())
}

// Adds an operation, or a front of it where memory is refused.
fn add_op(out: &mut List<u8>, op: &Op) -> Result<(), NoMemory>
    requires { IsSpelled op.now }
    ensures ok { OnOk result (Adds (SpellsAll (op_fields op.now)) out.old out.new) }
    ensures err { OnErr result (Grows out.old out.new) }
{
    match op {
        Op::Put { name, text } => add_pair(out, 1, name, text),
        Op::Append { name, text } => add_pair(out, 2, name, text),
        Op::Del { name } => add_single(out, 3, name),
        Op::Get { name } => add_single(out, 4, name),
        Op::Listing => add_tag(out, 5),
        Op::Note { text } => add_single(out, 6, text),
        Op::Notes => add_tag(out, 7),
        Op::Bind { name, text } => add_pair(out, 8, name, text),
        Op::Find { name } => add_single(out, 9, name),
        Op::Timer { name, ticks } => add_timer(out, 10, name, *ticks),
        Op::Left { name } => add_single(out, 11, name),
        Op::Window { name, text } => add_pair(out, 12, name, text),
        Op::Title { name } => add_single(out, 13, name),
        Op::Keep { name, text } => add_pair(out, 14, name, text),
        Op::Fetch { name } => add_single(out, 15, name),
        Op::Lend { client } => add_lend(out, 16, *client),
        Op::Extra { code, text } => add_extra(out, 17, *code, text),
    }
}
