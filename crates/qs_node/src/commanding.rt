//! The commands of clients as they come.
ghost use Rattle.std.specs.Prelude.{◌≡◌, OnOk};
ghost use Rattle.qs_node_step.specs.Commands.{begin_command};
ghost use Rattle.qs_node_step.specs.Step.{is_owner, with_command, command_came};
ghost use Rattle.qs_node.specs.Labelled.{obeyed, on_label};

use crate::beginning::begin_command;
use crate::borrowing::borrower_command;
use crate::owning::owner_command;
use qs_base::{ClientNo, Copied, NoMemory, Tid};
use qs_book_journal::{Command, ScriptLine};
use qs_node_servers::Servers;
use qs_node_step::{OpenCommand, Work};
use qs_ops::Server;

/// Whether the client owns the transaction.
pub fn is_owner(client: ClientNo, owner: Option<ClientNo>) -> bool
    ensures { result ≡ is_owner client owner }
{
    match owner {
        None => false,
        Some(owner) => owner == client,
    }
}

/// A command for a transaction whose label the node has met.
fn labelled<F: Server, X: Server>(
    work: &mut Work<Servers<F, X>>,
    client: ClientNo,
    owner: Option<ClientNo>,
    tid: Option<Tid>,
    command: Command,
) -> Result<(), NoMemory>
    ensures ok { OnOk result (work.new ≡ obeyed client owner tid command work.old) }
    ensures saved { work.new.node.kept.saved ≡ work.old.node.kept.saved }
{
    if is_owner(client, owner) {
        return owner_command(work, client, tid, command);
    }
    match tid {
        None => {
            drop(command);
            Ok(())
        }
        Some(tid) => borrower_command(work, client, tid, command),
    }
}

/// The command is open until it is answered.
fn with_command<F: Server, X: Server>(
    work: &mut Work<Servers<F, X>>,
    line: ScriptLine,
) -> Result<(), NoMemory>
    ensures ok { OnOk result (work.new ≡ with_command line work.old) }
    ensures saved { work.new.node.kept.saved ≡ work.old.node.kept.saved }
{
    let client = line.client;
    work.node
        .commands
        .put(client, OpenCommand { line, issued: None })
}

/// A command that begins a transaction.
fn begin_came<F: Server, X: Server>(
    work: &mut Work<Servers<F, X>>,
    line: &ScriptLine,
) -> Result<(), NoMemory>
    ensures ok { OnOk result (work.new ≡ begin_command line.now (with_command line.now work.old)) }
    ensures saved { work.new.node.kept.saved ≡ work.old.node.kept.saved }
{
    with_command(work, line.copy()?)?;
    begin_command(work, line)
}

/// The command is open, and is obeyed for the transaction of its label.
fn open_and_obey<F: Server, X: Server>(
    work: &mut Work<Servers<F, X>>,
    line: ScriptLine,
    owner: Option<ClientNo>,
    tid: Option<Tid>,
) -> Result<(), NoMemory>
    ensures ok { OnOk result (work.new ≡ obeyed line.client owner tid line.command (with_command line work.old)) }
    ensures saved { work.new.node.kept.saved ≡ work.old.node.kept.saved }
{
    let client = line.client;
    let Ok(command) = line.command.copy() else {
        drop(line);
        return Err(NoMemory);
    };
    let Ok(()) = with_command(work, line) else {
        drop(command);
        return Err(NoMemory);
    };
    labelled(work, client, owner, tid, command)
}

/// A command for a label; it only stays open where the node has not met the label.
fn on_label<F: Server, X: Server>(
    work: &mut Work<Servers<F, X>>,
    line: ScriptLine,
) -> Result<(), NoMemory>
    ensures ok { OnOk result (work.new ≡ on_label line (with_command line work.old)) }
    ensures saved { work.new.node.kept.saved ≡ work.old.node.kept.saved }
{
    match work.node.kept.label_at(&line.label) {
        None => with_command(work, line),
        Some(begun) => {
            let owner = begun.owner;
            let tid = begun.tid;
            open_and_obey(work, line, owner, tid)
        }
    }
}

/// A client's command comes.
pub fn command_came<F: Server, X: Server>(
    work: &mut Work<Servers<F, X>>,
    line: ScriptLine,
) -> Result<(), NoMemory>
    ensures ok { OnOk result (work.new ≡ command_came line work.old) }
    ensures saved { work.new.node.kept.saved ≡ work.old.node.kept.saved }
{
    match line.command {
        Command::Begin => {
            let begun = begin_came(work, &line);
            drop(line);
            begun
        }
        _ => on_label(work, line),
    }
}
