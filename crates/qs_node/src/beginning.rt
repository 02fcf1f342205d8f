//! How clients begin transactions.
ghost use Rattle.std.specs.Prelude.{◌≡◌, OnOk};
ghost use Rattle.qs_node_step.specs.Commands.{refuse_begin, begin_command};
ghost use Rattle.qs_node.specs.Begun.{has_begun};

use qs_base::{Copied, NoMemory, Tid};
use qs_book_journal::{Act, ScriptLine};
use qs_node_kept::KeptLabel;
use qs_node_servers::Servers;
use qs_node_step::Work;
use qs_node_work::{answer, enter, put_label};
use qs_ops::{Answer, Server};
use qs_tm::BeginFault;

/// The transaction has begun: its label is met, and its client is answered.
fn has_begun<F: Server, X: Server>(
    work: &mut Work<Servers<F, X>>,
    line: &ScriptLine,
    tid: Tid,
) -> Result<(), NoMemory>
    ensures ok { OnOk result (work.new ≡ has_begun line.now tid work.old) }
    ensures saved { work.new.node.kept.saved ≡ work.old.node.kept.saved }
{
    let client = line.client;
    put_label(
        work,
        KeptLabel {
            label: line.label.copy()?,
            tid: Some(tid),
            owner: Some(client),
        },
    )?;
    let label = line.label.copy()?;
    enter(work, Act::Begin { tid, label, client })?;
    answer(work, client, Answer::Done)
}

/// The log has no room for another transaction.
fn refuse_begin<F: Server, X: Server>(
    work: &mut Work<Servers<F, X>>,
    line: &ScriptLine,
    need: u64,
    room: u64,
) -> Result<(), NoMemory>
    ensures ok { OnOk result (work.new ≡ refuse_begin line.now need room work.old) }
    ensures saved { work.new.node.kept.saved ≡ work.old.node.kept.saved }
{
    let client = line.client;
    put_label(
        work,
        KeptLabel {
            label: line.label.copy()?,
            tid: None,
            owner: Some(client),
        },
    )?;
    answer(work, client, Answer::LogFull { need, room })
}

/// A client begins a transaction. Where the log has no room for its records the client is told so; where
/// the last number of a transaction was given nothing happens.
pub fn begin_command<F: Server, X: Server>(
    work: &mut Work<Servers<F, X>>,
    line: &ScriptLine,
) -> Result<(), NoMemory>
    ensures ok { OnOk result (work.new ≡ begin_command line.now work.old) }
    ensures saved { work.new.node.kept.saved ≡ work.old.node.kept.saved }
{
    match work.node.manager.begin(line.client, work.room) {
        Ok(tid) => has_begun(work, line, tid),
        Err(BeginFault::LogFull { need, room }) => refuse_begin(work, line, need, room),
        Err(BeginFault::Last { .. }) => Ok(()),
        Err(BeginFault::NoMemory) => Err(NoMemory),
    }
}
