//! What fits the limits of scripts.
ghost use Rattle.std.specs.Prelude.{◌≡◌};
ghost use Rattle.qs_text_script.specs.Rules.{is_count, fits_fault, fits_name, fits_text, fits_both, fits_timer, fits_op, fits_command, has_command_left, has_fault_left, fits};

use qs_base::Bytes;
use qs_book_journal::{Command, ScriptLine};
use qs_book_script::{FaultLine, Planned, Script, Statement};
use qs_ops::Op;

/// The clients have numbers below this one.
const CLIENTS: u8 = 32;

/// The most commands of a script.
const COMMANDS: usize = 4_096;

/// The most fault lines of a script.
const FAULT_LINES: usize = 64;

/// The most bytes of a quota.
const QUOTA: u64 = 1_048_576;

/// The last event, disk call, packet or count that a fault line may name; the first is 1.
const LAST_COUNT: u64 = 1_000_000;

/// The most ticks of a timer.
const TICKS: u32 = 1_000_000;

/// The most bytes of a name.
const NAME: usize = 64;

/// The most bytes of a text.
const TEXT: usize = 4_096;

/// Whether what the line says fits the limits, behind the lines that made this script.
pub fn fits(script: &Script, statement: &Statement) -> bool
    ensures { result ≡ fits script.now statement.now }
{
    match statement {
        Statement::Nothing | Statement::Audited { .. } | Statement::Unreadable { .. } => true,
        Statement::Seated { seat } => seat.client.0 < CLIENTS,
        Statement::Limited { quota } => quota.bytes <= QUOTA,
        Statement::Fault { fault } => has_fault_left(script.faults.as_slice()) && fits_fault(fault),
        Statement::Order { command, .. } => {
            has_command_left(script.lines.as_slice()) && fits_command(command)
        }
        Statement::Lend { .. } => has_command_left(script.lines.as_slice()),
    }
}

fn has_fault_left(faults: &[FaultLine]) -> bool
    ensures { result ≡ has_fault_left faults.now }
{
    faults.len() < FAULT_LINES
}

fn has_command_left(lines: &[ScriptLine]) -> bool
    ensures { result ≡ has_command_left lines.now }
{
    lines.len() < COMMANDS
}

fn is_count(number: u64) -> bool
    ensures { result ≡ is_count number }
{
    0 < number && number <= LAST_COUNT
}

fn fits_fault(fault: &Planned) -> bool
    ensures { result ≡ fits_fault fault.now }
{
    match fault {
        Planned::Crash { event, .. } => is_count(*event),
        Planned::Stop { call, .. } => is_count(*call),
        Planned::At { .. } => true,
        Planned::Drop { packet, .. } | Planned::Again { packet, .. } => is_count(*packet),
        Planned::Hold { packet, count, .. } => is_count(*packet) && is_count(*count),
    }
}

fn fits_command(command: &Command) -> bool
    ensures { result ≡ fits_command command.now }
{
    match command {
        Command::Request { op, .. } => fits_op(op),
        _ => true,
    }
}

fn fits_op(op: &Op) -> bool
    ensures { result ≡ fits_op op.now }
{
    match op {
        Op::Put { name, text }
        | Op::Append { name, text }
        | Op::Bind { name, text }
        | Op::Window { name, text }
        | Op::Keep { name, text } => fits_both(name, text),
        Op::Del { name }
        | Op::Get { name }
        | Op::Find { name }
        | Op::Left { name }
        | Op::Title { name }
        | Op::Fetch { name } => fits_name(name),
        Op::Note { text } => fits_text(text),
        Op::Timer { name, ticks } => fits_name(name) && *ticks <= TICKS,
        Op::Listing | Op::Notes | Op::Lend { .. } | Op::Extra { .. } => true,
    }
}

fn fits_both(name: &Bytes, text: &Bytes) -> bool
    ensures { result ≡ fits_both name.now text.now }
{
    fits_name(name) && fits_text(text)
}

fn fits_name(name: &Bytes) -> bool
    ensures { result ≡ fits_name name.now }
{
    name.len() <= NAME
}

fn fits_text(text: &Bytes) -> bool
    ensures { result ≡ fits_text text.now }
{
    text.len() <= TEXT
}
