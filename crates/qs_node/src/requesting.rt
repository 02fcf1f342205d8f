//! How clients issue requests.
ghost use Rattle.std.specs.Prelude.{◌≡◌, OnOk, IfOk};
ghost use Rattle.qs_node_step.specs.Commands.{with_issued, request_as, request_command};
ghost use Rattle.qs_node_servers.specs.Servers.{client_server};

use qs_base::{ClientNo, Member, NoMemory, ServerNo, Tid};
use qs_node_servers::Servers;
use qs_node_step::{Issued, Work};
use qs_node_work::{issue_as, next_number};
use qs_ops::servers::FIRST_CLIENT;
use qs_ops::{Op, Server};
use qs_tm::Outstanding;

/// The client's open command was issued as that request.
fn set_issued<F: Server, X: Server>(
    work: &mut Work<Servers<F, X>>,
    client: ClientNo,
    issued: Issued,
)
    ensures ok { work.new ≡ with_issued client issued work.old }
    ensures saved { work.new.node.kept.saved ≡ work.old.node.kept.saved }
{
    if let Some(command) = work.node.commands.get_mut(&client) {
        command.issued = Some(issued);
    }
}

/// A client as one who issues. A client that no server number stands for, 224 or above, is a refusal of
/// memory.
fn client_server(client: ClientNo) -> Result<ServerNo, NoMemory>
    ensures { IfOk result (λ server. server ≡ client_server client) }
{
    match client.0.checked_add(FIRST_CLIENT.0) {
        Some(number) => Ok(ServerNo(number)),
        None => Err(NoMemory),
    }
}

/// The client's command goes to the member as a request; nothing where no number is left for it.
pub fn request_command<F: Server, X: Server>(
    work: &mut Work<Servers<F, X>>,
    client: ClientNo,
    tid: Tid,
    member: Member,
    op: Op,
) -> Result<(), NoMemory>
    ensures ok { OnOk result (work.new ≡ request_command client tid member op work.old) }
    ensures saved { work.new.node.kept.saved ≡ work.old.node.kept.saved }
{
    let Some(number) = next_number(work, tid, member.node) else {
        drop(op);
        return Ok(());
    };
    let Ok(issuer) = client_server(client) else {
        drop(op);
        return Err(NoMemory);
    };
    let request = Outstanding {
        issuer,
        member,
        number,
        count: 0,
    };
    set_issued(
        work,
        client,
        Issued {
            tid,
            member,
            number,
        },
    );
    issue_as(work, tid, request, op)
}
