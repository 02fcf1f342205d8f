//! Entries in the history, and answers to clients.
ghost use Rattle.std.specs.Prelude.{◌≡◌, OnOk};
ghost use Rattle.std.specs.Option.{option_copied};
ghost use Rattle.qs_node_step.specs.Bringing.{member_here, enter, answer};

use qs_base::{ClientNo, Copied, Member, NoMemory, ServerNo};
use qs_book_journal::{Act, LineAnswer};
use qs_node_servers::Servers;
use qs_node_step::{ClientAnswer, Work};
use qs_ops::{Answer, Server};

/// A member of this node.
pub fn member_here<F: Server, X: Server>(work: &Work<Servers<F, X>>, server: ServerNo) -> Member
    ensures { result ≡ member_here work.now server }
{
    Member {
        node: work.node.setting.node,
        server,
    }
}

/// The entry stands.
pub fn enter<F: Server, X: Server>(work: &mut Work<Servers<F, X>>, act: Act) -> Result<(), NoMemory>
    ensures ok { OnOk result (work.new ≡ enter act work.old) }
    ensures saved { work.new.node.kept.saved ≡ work.old.node.kept.saved }
{
    work.out.entries.push(act)
}

/// The open command of that client is answered; nothing where it has none.
pub fn answer<F: Server, X: Server>(
    work: &mut Work<Servers<F, X>>,
    client: ClientNo,
    said: Answer,
) -> Result<(), NoMemory>
    ensures ok { OnOk result (work.new ≡ answer client said work.old) }
    ensures saved { work.new.node.kept.saved ≡ work.old.node.kept.saved }
{
    let line = match work.node.commands.get(&client) {
        Some(command) => command.line.line,
        None => {
            drop(said);
            return Ok(());
        }
    };
    work.node.commands.remove(&client);
    let Ok(copy) = said.copy() else {
        drop(said);
        return Err(NoMemory);
    };
    let given = ClientAnswer {
        client,
        answer: LineAnswer { line, answer: copy },
    };
    let Ok(()) = work.out.answers.push(given) else {
        drop(said);
        return Err(NoMemory);
    };
    let entry = Act::Answer {
        client,
        line,
        answer: said,
    };
    work.out.entries.push(entry)
}
