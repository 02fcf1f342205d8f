//! The commands of clients while they stay open.
ghost use Rattle.std.specs.Prelude.{◌≡◌, fold, IfOk, OnOk};
ghost use Rattle.std.specs.Option.{option_copied};
ghost use Rattle.qs_node_step.specs.Step.{wait_on, answer_waiting};
ghost use Rattle.qs_node.specs.Due.{owner_due, request_due, take_due, lent_due, borrower_due, due_at, due_of, do_due, is_due};

use crate::borrowing::{borrower_command, is_aborted};
use crate::commanding::is_owner;
use crate::owning::decided_answer;
use qs_base::{ClientNo, Copied, List, NoMemory, Tid};
use qs_book_journal::Command;
use qs_node_kept::KeptLabel;
use qs_node_servers::Servers;
use qs_node_step::{Issued, OpenCommand, Work};
use qs_node_work::answer;
use qs_ops::{Answer, Server};

/// What is to be done for a command that stays open.
#[derive(Drop)]
pub enum CommandDue {
    Nothing,
    Answer(Answer),
    /// The borrower's command is obeyed as if it came now.
    Obey { tid: Tid, command: Command },
}

/// The owner's command is answered once the transaction is decided.
fn owner_due<F: Server, X: Server>(
    work: &Work<Servers<F, X>>,
    tid: Option<Tid>,
    command: &Command,
) -> Result<CommandDue, NoMemory>
    ensures { IfOk result (λ due. due ≡ owner_due tid command.now work.now.node) }
{
    let Some(tid) = tid else {
        return Ok(CommandDue::Nothing);
    };
    match work.node.kept.outcome_of(tid) {
        None => Ok(CommandDue::Nothing),
        Some(decided) => Ok(CommandDue::Answer(decided_answer(decided, command)?)),
    }
}

/// A request that was issued is answered once its node knows abort.
fn request_due<F: Server, X: Server>(work: &Work<Servers<F, X>>, issued: Issued) -> CommandDue
    ensures { result ≡ request_due issued work.now.node }
{
    if is_aborted(work, issued.tid) {
        CommandDue::Answer(Answer::Ended)
    } else {
        CommandDue::Nothing
    }
}

/// A take is answered once its loan is made.
fn take_due<F: Server, X: Server>(
    work: &Work<Servers<F, X>>,
    client: ClientNo,
    tid: Tid,
) -> CommandDue
    ensures { result ≡ take_due client tid work.now.node }
{
    match work.node.kept.first_untaken(client, tid) {
        None => CommandDue::Nothing,
        Some(_) => CommandDue::Obey {
            tid,
            command: Command::Take,
        },
    }
}

/// A command of a borrower that was not issued.
fn lent_due<F: Server, X: Server>(
    work: &Work<Servers<F, X>>,
    client: ClientNo,
    tid: Tid,
    command: &Command,
) -> Result<CommandDue, NoMemory>
    ensures { IfOk result (λ due. due ≡ lent_due client tid command.now work.now.node) }
{
    match command {
        Command::Take => Ok(take_due(work, client, tid)),
        _ => Ok(CommandDue::Obey {
            tid,
            command: command.copy()?,
        }),
    }
}

fn borrower_due<F: Server, X: Server>(
    work: &Work<Servers<F, X>>,
    client: ClientNo,
    issued: Option<Issued>,
    tid: Option<Tid>,
    command: &Command,
) -> Result<CommandDue, NoMemory>
    ensures { IfOk result (λ due. due ≡ borrower_due client issued tid command.now work.now.node) }
{
    match (issued, tid) {
        (Some(issued), _) => Ok(request_due(work, issued)),
        (None, None) => Ok(CommandDue::Nothing),
        (None, Some(tid)) => lent_due(work, client, tid, command),
    }
}

fn due_at<F: Server, X: Server>(
    work: &Work<Servers<F, X>>,
    client: ClientNo,
    command: &OpenCommand,
    begun: Option<&KeptLabel>,
) -> Result<CommandDue, NoMemory>
    ensures { IfOk result (λ due. due ≡ due_at client command.now (option_copied begun.entry) work.now.node) }
{
    let Some(begun) = begun else {
        return Ok(CommandDue::Nothing);
    };
    if is_owner(client, begun.owner) {
        owner_due(work, begun.tid, &command.line.command)
    } else {
        borrower_due(
            work,
            client,
            command.issued,
            begun.tid,
            &command.line.command,
        )
    }
}

/// What is to be done for the client's open command. In most steps that is nothing, so the command is only read:
/// it is copied where it is obeyed.
fn due_of<F: Server, X: Server>(
    work: &Work<Servers<F, X>>,
    client: ClientNo,
) -> Result<CommandDue, NoMemory>
    ensures { IfOk result (λ due. due ≡ due_of client work.now.node) }
{
    match work.node.commands.get(&client) {
        None => Ok(CommandDue::Nothing),
        Some(command) => due_at(
            work,
            client,
            command,
            work.node.kept.label_at(&command.line.label),
        ),
    }
}

fn do_due<F: Server, X: Server>(
    work: &mut Work<Servers<F, X>>,
    client: ClientNo,
    due: CommandDue,
) -> Result<(), NoMemory>
    ensures ok { OnOk result (work.new ≡ do_due client due work.old) }
    ensures saved { work.new.node.kept.saved ≡ work.old.node.kept.saved }
{
    match due {
        CommandDue::Nothing => Ok(()),
        CommandDue::Answer(said) => answer(work, client, said),
        CommandDue::Obey { tid, command } => borrower_command(work, client, tid, command),
    }
}

fn wait_on<F: Server, X: Server>(
    work: &mut Work<Servers<F, X>>,
    client: ClientNo,
) -> Result<(), NoMemory>
    ensures ok { OnOk result (work.new ≡ wait_on work.old client) }
    ensures saved { work.new.node.kept.saved ≡ work.old.node.kept.saved }
{
    let due = due_of(work, client)?;
    do_due(work, client, due)
}

fn wait_each<F: Server, X: Server>(
    work: &mut Work<Servers<F, X>>,
    clients: &[ClientNo],
) -> Result<(), NoMemory>
    ensures ok { OnOk result (work.new ≡ fold wait_on work.old clients.now) }
    ensures saved { work.new.node.kept.saved ≡ work.old.node.kept.saved }
{
    for client in clients {
        wait_on(work, *client)?;
    }
    Ok(())
}

fn is_due<F: Server, X: Server>(
    work: &Work<Servers<F, X>>,
    client: ClientNo,
) -> Result<bool, NoMemory>
    ensures { IfOk result (λ is. is ≡ is_due client work.now.node) }
{
    match due_of(work, client)? {
        CommandDue::Nothing => Ok(false),
        CommandDue::Answer(said) => {
            drop(said);
            Ok(true)
        }
        CommandDue::Obey { command, .. } => {
            drop(command);
            Ok(true)
        }
    }
}

/// One more client with an open command. It is left out where nothing is to be done for it or for one before it.
fn add_client<F: Server, X: Server>(
    work: &Work<Servers<F, X>>,
    clients: &mut List<ClientNo>,
    client: ClientNo,
) -> Result<(), NoMemory>
    ensures { OnOk result (fold wait_on work.now clients.new ≡ wait_on (fold wait_on work.now clients.old) client) }
{
    if clients.is_empty() && !is_due(work, client)? {
        return Ok(());
    }
    clients.push(client)
}

/// The clients with open commands, from the first on for whom something is to be done. In most steps there is
/// none, and the list takes no memory.
fn waiting_clients<F: Server, X: Server>(
    work: &Work<Servers<F, X>>,
) -> Result<List<ClientNo>, NoMemory>
    ensures { IfOk result (λ clients. fold wait_on work.now clients ≡ answer_waiting work.now) }
{
    let mut clients = List::new(work.node.manager.alloc);
    for entry in work.node.commands.iter() {
        add_client(work, &mut clients, *entry.0)?;
    }
    Ok(clients)
}

/// The commands that stay open are looked at again, in order of clients.
pub fn answer_waiting<F: Server, X: Server>(work: &mut Work<Servers<F, X>>) -> Result<(), NoMemory>
    ensures ok { OnOk result (work.new ≡ answer_waiting work.old) }
    ensures saved { work.new.node.kept.saved ≡ work.old.node.kept.saved }
{
    let clients = waiting_clients(work)?;
    wait_each(work, clients.as_slice())
}
