//! What the log of a node holds as a run begins: its committed contents, and what is pending.
ghost use Rattle.std.specs.Prelude.{◌≡◌, [], fold, IfOk};
ghost use Rattle.std.specs.List.{flat_map};
ghost use Rattle.qs_ops.specs.Table.{no_table, applied, apply_change, apply_note};
ghost use Rattle.qs_world.specs.Histories.{opened_with, format_of, pending_of};

use qs_base::{Bytes, Copied, List, NoMemory};
use qs_book_machine::{Opened, Pending};
use qs_book_tables::Table;
use qs_node_step::Setting;
use qs_ops::{Changes, File};
use qs_record::Record;
use qs_restart::Recovered;
use std::alloc::Global;

/// The format of a disk with no bytes before each record.
const PLAIN_FORMAT: u32 = 1;

/// The format of a disk with some.
const SPACED_FORMAT: u32 = 2;

/// What a log that says `found` holds for a node with this setting. The only error is a refusal of memory.
pub fn opened_with(alloc: Global, setting: &Setting, found: &Recovered) -> Result<Opened, NoMemory>
    ensures { IfOk result (λ opened. opened ≡ opened_with setting.now found.now) }
{
    Ok(Opened {
        inc: setting.inc,
        format: format_of(setting.extra),
        files: files_of(alloc, &found.files)?,
        audit: notes_of(alloc, &found.audit)?,
        extra: List::new(alloc),
        pending: pending_of(alloc, found.in_doubt.as_slice())?,
        committed: found.committed.copy()?,
    })
}

fn format_of(extra: u64) -> u32
    ensures { result ≡ format_of extra }
{
    if extra == 0 {
        PLAIN_FORMAT
    } else {
        SPACED_FORMAT
    }
}

/// The files once these changes are made.
fn files_of(alloc: Global, changes: &Changes) -> Result<List<File>, NoMemory>
    ensures { IfOk result (λ files. files ≡ fold apply_change [] changes.now) }
{
    let table = table_of(alloc, changes)?;
    copied_files(alloc, table.contents().as_slice())
}

/// The notes once these changes are made.
fn notes_of(alloc: Global, changes: &Changes) -> Result<List<Bytes>, NoMemory>
    ensures { IfOk result (λ notes. notes ≡ fold apply_note [] changes.now) }
{
    let table = table_of(alloc, changes)?;
    table.notes().copy()
}

fn table_of(alloc: Global, changes: &Changes) -> Result<Table, NoMemory>
    ensures { IfOk result (λ table. table ≡ applied no_table changes.now) }
{
    let mut table = Table::new(alloc);
    table.restart(changes, &List::new(alloc))?;
    Ok(table)
}

fn copied_files(alloc: Global, files: &[File]) -> Result<List<File>, NoMemory>
    ensures { IfOk result (λ copies. copies ≡ files.now) }
{
    let mut copies = List::new(alloc);
    for file in files {
        copies.push(File {
            name: file.name.copy()?,
            content: file.content.copy()?,
        })?;
    }
    Ok(copies)
}

/// The Prepares that are not ended and have no Commit.
fn pending_of(alloc: Global, in_doubt: &[Record]) -> Result<List<Pending>, NoMemory>
    ensures { IfOk result (λ pending. pending ≡ flat_map pending_of in_doubt.now) }
{
    let mut pending = List::new(alloc);
    for rec in in_doubt {
        if let Record::Prepare {
            tid,
            server,
            covers,
            changes,
        } = rec
        {
            pending.push(Pending {
                tid: *tid,
                server: *server,
                covers: *covers,
                changes: changes.copy()?,
            })?;
        }
    }
    Ok(pending)
}
