//! What a node takes up from its log as its incarnation begins.
ghost use Rattle.std.specs.Prelude.{◌≡◌, ◌++◌, fold, IfOk, OnOk};
ghost use Rattle.qs_ops.specs.Table.{no_table};
ghost use Rattle.qs_node.specs.Contents.{with_contents};
ghost use Rattle.qs_node_step.specs.Opening.{take_up, opened_manager, keep_changes};

use qs_base::NoMemory;
use qs_node_servers::Servers;
use qs_node_step::Setting;
use qs_ops::Server;
use qs_record::Record;
use qs_restart::Recovered;
use qs_tm::Manager;
use std::alloc::Global;

fn take_up_each(manager: &mut Manager, records: &[Record]) -> Result<(), NoMemory>
    ensures { OnOk result (manager.new ≡ fold take_up manager.old records.now) }
{
    for rec in records {
        manager.take_up(rec)?;
    }
    Ok(())
}

#[tactic(auto, using(crate::proofs::TakenUp::taken_up))]
fn take_up_both(manager: &mut Manager, first: &[Record], second: &[Record]) -> Result<(), NoMemory>
    ensures { OnOk result (manager.new ≡ fold take_up manager.old (first.now ++ second.now)) }
{
    take_up_each(manager, first)?;
    take_up_each(manager, second)
}

/// The transactions that the log says are not ended: a Prepare in doubt as its vote, which at the home means
/// abort, and a Commit that is still to be told.
pub fn opened_manager(
    alloc: Global,
    setting: &Setting,
    found: &Recovered,
) -> Result<Manager, NoMemory>
    ensures { IfOk result (λ manager. manager ≡ opened_manager alloc setting.now found.now) }
{
    let mut manager = Manager::new(
        alloc,
        setting.node,
        setting.inc,
        setting.extra,
        setting.keep,
    );
    let in_doubt = found.in_doubt.as_slice();
    take_up_both(&mut manager, in_doubt, found.untold.as_slice())?;
    Ok(manager)
}

#[tactic(auto, using(crate::proofs::FurtherServer::kind_stays))]
fn keep_changes<F: Server, X: Server>(
    servers: &mut Servers<F, X>,
    rec: &Record,
) -> Result<(), NoMemory>
    ensures ok { OnOk result (servers.new ≡ keep_changes servers.old rec.now) }
    ensures kind { servers.new.extra.kind ≡ servers.old.extra.kind }
{
    match rec {
        Record::Prepare {
            tid,
            server,
            changes,
            ..
        } => servers.keep(*server, *tid, changes),
        Record::Commit { .. } | Record::Aborted { .. } | Record::End { .. } => Ok(()),
    }
}

fn keep_each<F: Server, X: Server>(
    servers: &mut Servers<F, X>,
    records: &[Record],
) -> Result<(), NoMemory>
    ensures ok { OnOk result (servers.new ≡ fold keep_changes servers.old records.now) }
    ensures kind { servers.new.extra.kind ≡ servers.old.extra.kind }
{
    for rec in records {
        keep_changes(servers, rec)?;
    }
    Ok(())
}

/// Servers that have and hold nothing take in the contents that the log keeps of files and audit, and the
/// changes of a Prepare in doubt are pending again. Which server the further one is stays, also after a refusal
/// of memory, the only error.
pub fn open_servers<F: Server, X: Server>(
    servers: &mut Servers<F, X>,
    found: &Recovered,
) -> Result<(), NoMemory>
    requires files { servers.old.files.table ≡ no_table }
    requires audit { servers.old.audit.table ≡ no_table }
    ensures ok { OnOk result (servers.new ≡ fold keep_changes (with_contents found.now servers.old) found.now.in_doubt) }
    ensures kind { servers.new.extra.kind ≡ servers.old.extra.kind }
{
    servers.take_in(&found.files, &found.audit)?;
    keep_each(servers, found.in_doubt.as_slice())
}
