//! The program as a function: its words, standard input and output, and the number that it ends with.
#![tactic(auto)]

mod meter;
mod metered;
mod standard;

ghost use Rattle.std.specs.Prelude.{◌≡◌, ◌≤◌, length, IfOk, OnOk};

use crate::meter::Meter;
use crate::metered::Metered;
use crate::standard::{NULL, stand_ins};
use qs_base::NoMemory;
use qs_disk_file::{DiskFile, FileDisk};
use qs_io::{StdSink, StdSource};
use qs_text::{Status, StatusLine};
use qs_top::{Run, run};
use std::alloc::Global;
use std::fs::Files;
use std::io::ErrorKind;
use std::os::fd::AsRawFd;
use std::process::ExitCode;
use std::rt::{Clock, Env};
use std::thread::Threads;
use std::{env, io, mem};

/// How many disks there are, one for each node that a run may have.
const DISK_COUNT: u8 = 8;

/// The words after the program's name; else why there are none.
fn words_of<R: Env + AllocGlobal>(rt: &R) -> Result<Vec<String>, Status> {
    match given_words(rt) {
        Ok(words) => Ok(words),
        Err(error) => Err(unread(error.kind())),
    }
}

/// The status where the words were not read: no form has a word that is not UTF-8.
fn unread(why: ErrorKind) -> Status {
    match why {
        ErrorKind::InvalidData => Status::Usage,
        _ => Status::NoMemory,
    }
}

/// The words after the program's name, unless one is not UTF-8 or memory is refused.
fn given_words<R: Env + AllocGlobal>(rt: &R) -> io::Result<Vec<String>> {
    let mut words = Vec::new(rt.alloc());
    for word in env::args(rt)?.skip(1) {
        words.push(word)?;
    }
    Ok(words)
}

/// Tells the status on standard error. It takes no memory.
fn tell(rt: &impl Eprint, status: &Status) -> io::Result<()> {
    eprintln!(rt; "{}", StatusLine(status))
}

/// A disk over a file, whose syncs are counted.
type ProgramDisk<'a, R> = Metered<'a, R, FileDisk<&'a R>>;

/// Eight disks, over the files `node0.disk` to `node7.disk` of the current folder. A file is opened at the first use of its
/// disk.
fn disks<'a, R>(
    rt: &'a R,
    alloc: Global,
    meter: &'a Meter<'a, R>,
) -> Result<Vec<ProgramDisk<'a, R>>, NoMemory>
where
    R: Files,
    R::File: DiskFile,
    ensures { IfOk result (λ disks. length disks.items ≡ 8) }
{
    let mut disks = Vec::new(alloc);
    match add_disks(rt, alloc, meter, &mut disks) {
        Ok(()) => Ok(disks),
        Err(NoMemory) => {
            drop(disks);
            Err(NoMemory)
        }
    }
}

/// Adds them to none.
fn add_disks<'a, R>(
    rt: &'a R,
    alloc: Global,
    meter: &'a Meter<'a, R>,
    disks: &mut Vec<ProgramDisk<'a, R>>,
) -> Result<(), NoMemory>
where
    R: Files,
    R::File: DiskFile,
    requires { length disks.old.items ≡ 0 }
    ensures { OnOk result (length disks.new.items ≡ 8) }
{
    for node in 0..DISK_COUNT {
        let path = format!(in alloc; "node{node}.disk")?;
        let disk = FileDisk::new(rt, alloc, path.as_str())?;
        disks.push(Metered::new(disk, meter))?;
    }
    Ok(())
}

/// Tells on standard error why calls on disks failed, a line for each disk on which one did.
fn tell_troubles<'a, R>(rt: &impl Eprint, disks: &[ProgramDisk<'a, R>])
where
    R: Files,
    R::File: DiskFile,
{
    for metered in disks {
        let disk = metered.disk();
        if let Some(trouble) = disk.trouble() {
            let _ = eprintln!(rt; "qs: {}: {trouble}", disk.path());
        }
    }
}

/// Does what the program's words ask for, from standard input to standard output, and tells on standard error why calls
/// on disks failed, and on a terminal the progress.
fn carried_out<R>(rt: &R, alloc: Global, is_terminal: bool) -> Status
where
    R: Env + AllocGlobal + Files + Clock + Input + Print + Eprint + Threads + Sync,
    R::File: DiskFile,
{
    let words = match words_of(rt) {
        Ok(words) => words,
        Err(status) => return status,
    };
    let meter = Meter::new(rt, is_terminal);
    let status = over_files(rt, alloc, words.as_slice(), &meter);
    drop(words);
    status
}

/// Does what the words ask for over the files of the disks.
fn over_files<'a, R>(rt: &'a R, alloc: Global, words: &[String], meter: &'a Meter<'a, R>) -> Status
where
    R: Env + AllocGlobal + Files + Clock + Input + Print + Eprint + Threads + Sync,
    R::File: DiskFile,
{
    match disks(rt, alloc, meter) {
        Ok(mut disks) => {
            let status = over_disks(rt, alloc, words, &mut disks);
            tell_troubles(rt, disks.as_slice());
            drop(disks);
            status
        }
        Err(NoMemory) => Status::NoMemory,
    }
}

/// Does what the words ask for over these disks.
fn over_disks<'a, R>(
    rt: &'a R,
    alloc: Global,
    words: &[String],
    disks: &mut Vec<ProgramDisk<'a, R>>,
) -> Status
where
    R: Env + AllocGlobal + Files + Clock + Input + Print + Eprint + Threads + Sync,
    R::File: DiskFile,
    requires { 8 ≤ length disks.old.items }
{
    let mut source = StdSource::new(rt.reader());
    let mut sink = StdSink::new(io::writer(rt));
    let Run {
        status,
        journal,
        trace,
    } = run(rt, alloc, words, &mut source, &mut sink, disks);
    // The program ends: to give back each entry and each step by itself would only take time.
    mem::forget(journal);
    mem::forget(trace);
    status
}

/// Does what the program's words ask for, from standard input to standard output, tells the status
/// on standard error, and answers its number. Where that is a terminal a run that goes on for more than a second tells its
/// progress there. A standard stream that is closed is no file that is opened here: the
/// input is a read fault then, the output a write fault, and what would go to standard error is lost.
pub fn program<R>(rt: &R, is_terminal: bool) -> ExitCode
where
    R: Env + AllocGlobal + Files + Clock + Input + Print + Eprint + Threads + Sync,
    R::File: AsRawFd + DiskFile,
{
    let alloc = rt.alloc();
    let stand_ins = stand_ins(rt);
    // Where a number may be free nothing else is opened.
    let status = match &stand_ins {
        Ok(_) => carried_out(rt, alloc, is_terminal),
        Err(error) => {
            let _ = eprintln!(rt; "qs: {NULL}: {error}");
            Status::WriteFault
        }
    };
    // Where standard error takes nothing, the number alone tells.
    let _ = tell(rt, &status);
    ExitCode::from(status.number())
}
