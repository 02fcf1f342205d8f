//! Operations as a script spells them, without label and node.
ghost use Rattle.std.specs.Prelude.{◌≡◌, ◌++◌, ◌∷◌, [], OnOk, decimal};
ghost use Rattle.qs_text_script.specs.Answers.{list_text};
ghost use Rattle.qs_text_script.specs.Journal.{op_word, op_arguments, op_words};

use crate::pieces::{add_bytes, add_number, add_text};
use qs_base::{Bytes, NoMemory};
use qs_ops::Op;
use std::alloc::Global;

/// Adds an operation: its word and its arguments, each after a blank.
pub fn add_op(alloc: Global, out: &mut Bytes, op: &Op) -> Result<(), NoMemory>
    ensures { OnOk result (out.new ≡ out.old ++ list_text (op_words op.now)) }
{
    add_text(out, op_word(op))?;
    add_arguments(alloc, out, op)
}

/// The word of an operation.
fn op_word(op: &Op) -> &'static str
    ensures { result.now ≡ op_word op.now }
{
    match op {
        Op::Put { .. } => "put",
        Op::Append { .. } => "append",
        Op::Del { .. } => "del",
        Op::Get { .. } => "get",
        Op::Listing => "list",
        Op::Note { .. } => "note",
        Op::Notes => "notes",
        Op::Bind { .. } => "bind",
        Op::Find { .. } => "find",
        Op::Timer { .. } => "timer",
        Op::Left { .. } => "left",
        Op::Window { .. } => "window",
        Op::Title { .. } => "title",
        Op::Keep { .. } => "keep",
        Op::Fetch { .. } => "fetch",
        Op::Lend { .. } => "lend",
        Op::Extra { .. } => "extra",
    }
}

/// Adds the arguments of an operation.
fn add_arguments(alloc: Global, out: &mut Bytes, op: &Op) -> Result<(), NoMemory>
    ensures { OnOk result (out.new ≡ out.old ++ list_text (op_arguments op.now)) }
{
    match op {
        Op::Put { name, text }
        | Op::Append { name, text }
        | Op::Bind { name, text }
        | Op::Window { name, text }
        | Op::Keep { name, text } => add_pair(out, name, text),
        Op::Del { name } | Op::Get { name } | Op::Find { name } | Op::Left { name } => {
            add_bytes(out, name.as_slice())
        }
        Op::Title { name } | Op::Fetch { name } => add_bytes(out, name.as_slice()),
        Op::Note { text } => add_bytes(out, text.as_slice()),
        Op::Timer { name, ticks } => add_timer(alloc, out, name, *ticks),
        Op::Lend { client } => add_number(alloc, out, u64::from(client.0)),
        Op::Extra { code, text } => add_extra(alloc, out, *code, text),
        Op::Listing | Op::Notes => Ok(()),
    }
}

/// Adds a name and a text.
fn add_pair(out: &mut Bytes, name: &Bytes, text: &Bytes) -> Result<(), NoMemory>
    ensures { OnOk result (out.new ≡ out.old ++ list_text (name.now ∷ text.now ∷ [])) }
{
    add_bytes(out, name.as_slice())?;
    add_bytes(out, text.as_slice())
}

/// Adds a timer's name and ticks.
fn add_timer(alloc: Global, out: &mut Bytes, name: &Bytes, ticks: u32) -> Result<(), NoMemory>
    ensures { OnOk result (out.new ≡ out.old ++ list_text (name.now ∷ decimal ticks ∷ [])) }
{
    add_bytes(out, name.as_slice())?;
    add_number(alloc, out, u64::from(ticks))
}

/// Adds the code and the text of an operation of the further server.
fn add_extra(alloc: Global, out: &mut Bytes, code: u32, text: &Bytes) -> Result<(), NoMemory>
    ensures { OnOk result (out.new ≡ out.old ++ list_text (decimal code ∷ text.now ∷ [])) }
{
    add_number(alloc, out, u64::from(code))?;
    add_bytes(out, text.as_slice())
}
