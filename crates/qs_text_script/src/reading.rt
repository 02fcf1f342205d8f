//! Reads a script.
ghost use Rattle.std.specs.Prelude.{◌≡◌, ◌≤◌, List, ℕ, Ok, Err, IfOk, IsErrOf, OnOk, length};
ghost use Rattle.qs_text_script.specs.Indexes.{IsIndexed};
ghost use Rattle.qs_book_script.specs.Lines.{lines_of};
ghost use Rattle.qs_text_script.specs.Rules.{empty_script};
ghost use Rattle.qs_text_script.specs.Script.{read_from, script_of, line_past_limit};

use crate::gathering::Gathered;
use crate::open::left_open;
use qs_base::NoMemory;
use qs_book_script::{Script, ScriptFault, line_states, next_line};
use std::alloc::Global;

/// The most bytes of a script.
const LIMIT: usize = 1_048_576;

/// Why a text is not read.
#[derive(Clone, Copy)]
pub enum ScriptFailed {
    /// It is no script: its first fault, and the line of it, from 1.
    Fault { line: u32, fault: ScriptFault },
    /// Memory was asked for and refused.
    NoMemory,
}

impl From<NoMemory> for ScriptFailed {
    ghost use Rattle.qs_text_script.specs.declared.reading.ScriptFailed.TheVariants as failures;

    ghost from_gives = { λ _ e. e ≡ failures.NoMemory };

    fn from(_error: NoMemory) -> ScriptFailed {
        ScriptFailed::NoMemory
    }
}

/// Reads a script for so many nodes. A text that is too long is told first; then in each line, from
/// the first: its bytes, its leading word, the command word of a client's line, the count of its
/// words, their spelling, `Unknown`, `Twice` and `Limit`; then `Open`.
pub fn read_script(alloc: Global, text: &[u8], nodes: u8) -> Result<Script, ScriptFailed>
    // A fault is the first one of the text, and a text with a fault is not read.
    ensures fault { (line : ℕ) (fault : ScriptFault) → IsErrOf result (ScriptFailed.Fault line fault) → script_of nodes text.now ≡ Err (ScriptFailed.Fault line fault) }
    ensures value { IfOk result (λ script. script_of nodes text.now ≡ Ok script) }
    ensures short { OnOk result (length text.now ≤ 1048576) }
{
    if LIMIT < text.len() {
        return Err(ScriptFailed::Fault {
            line: line_past_limit(text),
            fault: ScriptFault::TooLarge,
        });
    }
    let gathered = gather(alloc, nodes, text)?;
    if let Some(line) = left_open(alloc, gathered.script.lines.as_slice())? {
        return Err(ScriptFailed::Fault {
            line,
            fault: ScriptFault::Open,
        });
    }
    Ok(gathered.script)
}

/// The line of the byte past the limit.
fn line_past_limit(text: &[u8]) -> u32
    requires { 1048576 ≤ length text.now }
    ensures { result ≡ line_past_limit text.now }
{
    let (front, _) = text.split_at(LIMIT);
    front.iter().filter(|byte| **byte == b'\n').count() as u32 + 1
}

/// Reads all lines of a text of at most 1,048,576 bytes, up to the first with a fault.
fn gather(alloc: Global, nodes: u8, text: &[u8]) -> Result<Gathered, ScriptFailed>
    requires { length text.now ≤ 1048576 }
    ensures fault { (line : ℕ) (fault : ScriptFault) → IsErrOf result (ScriptFailed.Fault line fault)
        → read_from nodes empty_script (lines_of text.now) ≡ Err (ScriptFailed.Fault line fault) }
    ensures value { IfOk result (λ gathered. read_from nodes empty_script (lines_of text.now) ≡ Ok gathered.script) }
{
    let mut gathered = Gathered::new(alloc);
    let mut rest = text;
    while !rest.is_empty() {
        let (line, after) = next_line(rest);
        let statement = line_states(alloc, line)?;
        if let Some(fault) = gathered.fault_of(nodes, &statement) {
            return Err(ScriptFailed::Fault {
                line: gathered.script.count + 1,
                fault,
            });
        }
        gathered.take(alloc, statement)?;
        rest = after;
    }
    Ok(gathered)
}
