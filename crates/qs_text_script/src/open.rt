//! Transactions and loans that a script leaves open.
ghost use Rattle.std.specs.Prelude.{◌≡◌, ◌||◌, List, ℕ, IfOk, OnOk};
ghost use Rattle.qs_text_script.specs.Labels.{has_label};
ghost use Rattle.qs_text_script.specs.Rules.{is_of};
ghost use Rattle.qs_text_script.specs.Script.{ends, gives_back, given_back_by, is_given_back, is_closed_by, first_left_open, left_open};

use crate::command::is_end;
use crate::label_set::LabelSet;
use qs_base::{Bytes, ClientNo, NoMemory};
use qs_book_journal::{Command, ScriptLine};
use std::alloc::Global;

/// The line of the first `begin` without a later `commit` or `abort` of its label, or `take` without
/// a `yield` of its client and label before the next such `take`. It goes over the commands once,
/// from the last.
pub fn left_open(alloc: Global, lines: &[ScriptLine]) -> Result<Option<u32>, NoMemory>
    ensures { IfOk result (λ line. line ≡ left_open lines.now) }
{
    let mut ended = LabelSet::new(alloc);
    let mut found = None;
    let mut at = lines.len();
    while 0 < at {
        at -= 1;
        let line = &lines[at];
        let (_, later) = lines.split_at(at + 1);
        found = first_left_open(line, &ended, later, found);
        note_end(line, &mut ended)?;
    }
    Ok(found)
}

/// The line of a command that is left open, else what was found of the later lines.
fn first_left_open(
    line: &ScriptLine,
    ended: &LabelSet,
    later: &[ScriptLine],
    found: Option<u32>,
) -> Option<u32>
    ensures { result ≡ first_left_open line.now (has_label line.now.label ended.now) later.now found }
{
    if is_closed_by(line, ended, later) {
        found
    } else {
        Some(line.line)
    }
}

/// Whether the command is closed by later ones.
fn is_closed_by(line: &ScriptLine, ended: &LabelSet, later: &[ScriptLine]) -> bool
    ensures { result ≡ is_closed_by line.now (has_label line.now.label ended.now) later.now line.now.command }
{
    match line.command {
        Command::Begin => ended.has(&line.label),
        Command::Take => is_given_back(line, later),
        _ => true,
    }
}

/// Whether the client gives the loan back before it takes the next of that label.
fn is_given_back(line: &ScriptLine, later: &[ScriptLine]) -> bool
    ensures { result ≡ is_given_back line.now later.now }
{
    let mut rest = later;
    while let [next, more @ ..] = rest {
        if let Some(given) = given_back_by(line, next) {
            return given;
        }
        rest = more;
    }
    false
}

/// What a later command says of a loan: given back, taken again, or nothing.
fn given_back_by(line: &ScriptLine, later: &ScriptLine) -> Option<bool>
    ensures { result ≡ given_back_by line.now later.now }
{
    if is_of(line.client, &line.label, later) {
        gives_back(&later.command)
    } else {
        None
    }
}

fn gives_back(command: &Command) -> Option<bool>
    ensures { result ≡ gives_back command.now }
{
    match command {
        Command::Yield => Some(true),
        Command::Take => Some(false),
        _ => None,
    }
}

/// Whether the line is of that client and label.
fn is_of(client: ClientNo, label: &Bytes, line: &ScriptLine) -> bool
    ensures { result ≡ is_of client.0 label.now line.now }
{
    line.client.0 == client.0 && line.label == *label
}

/// The label of a command that ends a transaction is ended.
fn note_end(line: &ScriptLine, ended: &mut LabelSet) -> Result<(), NoMemory>
    ensures { OnOk result ((label : List ℕ) → has_label label ended.new ≡ (has_label label ended.old || ends label line.now)) }
{
    if is_end(&line.command) {
        ended.add(&line.label)?;
    }
    Ok(())
}
