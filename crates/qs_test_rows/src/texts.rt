//! Texts that are printed as the values which were read of them.
//!
//! A line `$ WORDS` has the words after the program's name. The lines before `? script NODES` are read
//! as a script for so many nodes, and those before `? history` as a history, whose entries are then
//! printed again behind the output of that script. `? client K` gives the script one more client, at
//! node 0, `? long BYTES` reads a script of so many bytes, and `? waiting CLIENT LINE` prints the
//! status of a run in which a client waits.

use crate::shared::{add_line, tell, tell_fault, words_of};
use anyhow::{Context, Error, bail};
use qs_base::{Bytes, ClientNo, List, NodeNo};
use qs_book::{Book, BookFault};
use qs_text::out_text;
use qs_text_script::{Script, ScriptFailed, Seat, Status, Waiting, read_script, read_words};
use qs_tools::{Journal, JournalFailed, read_journal};
use std::alloc::Global;
use std::mem;

/// The most bytes of a script that is made here.
const LONGEST: usize = 2_000_000;

/// After how many rounds the run stopped in which a client waits.
const ROUNDS: u64 = 12_288;

/// Prints the form of these words.
fn words<R: AllocGlobal + Print>(rt: &R, line: &str) -> Result<(), Error> {
    let words = words_of(rt.alloc(), line)?;
    let form = read_words(words.as_slice());
    drop(words);
    println!(rt; "  {form:?}")?;
    Ok(())
}

/// Prints the status of a run that stopped while the client of these words waited at that line.
fn waits<R: AllocGlobal + Print>(rt: &R, words: &str) -> Result<(), Error> {
    let (client, line) = words.split_once(' ').context("a client and a line")?;
    let one = Waiting {
        client: ClientNo(client.parse::<u8>().context("no client")?),
        line: line.parse::<u32>().context("no line")?,
    };
    let mut waiting = List::new(rt.alloc());
    if waiting.push(one).is_err() {
        bail!("no memory");
    }
    let rounds = ROUNDS;
    let status = Status::Unfinished { rounds, waiting };
    let told = tell(rt, &status);
    drop(status);
    told
}

/// Prints a script that was read.
fn show_script<R: Print>(rt: &R, script: &Script) -> Result<(), Error> {
    println!(rt; "  {} lines", script.count)?;
    for seat in script.seats.as_slice() {
        println!(rt; "  {seat:?}")?;
    }
    for line in script.lines.as_slice() {
        println!(rt; "  {line:?}")?;
    }
    Ok(())
}

/// Reads a script, and prints it or why it is none.
fn script<R: AllocGlobal + Print>(rt: &R, text: &str, nodes: u8) -> Result<Option<Script>, Error> {
    match read_script(rt.alloc(), text.as_bytes(), nodes) {
        Ok(script) => {
            if let Err(fault) = show_script(rt, &script) {
                drop(script);
                return Err(fault);
            }
            Ok(Some(script))
        }
        Err(ScriptFailed::Fault { line, fault }) => {
            tell_fault(rt, line, fault)?;
            Ok(None)
        }
        Err(ScriptFailed::NoMemory) => bail!("no memory"),
    }
}

/// Gives the script one more client, at node 0.
fn add_client(script: &mut Script, number: u8) -> Result<(), Error> {
    let seat = Seat {
        client: ClientNo(number),
        node: NodeNo(0),
    };
    if script.seats.push(seat).is_err() {
        bail!("no memory");
    }
    Ok(())
}

/// Reads a script of as many bytes as the word spells, one comment.
fn long<R: AllocGlobal + Print>(rt: &R, word: &str) -> Result<(), Error> {
    let bytes = word.parse::<usize>().context("how many bytes?")?;
    if bytes > LONGEST {
        bail!("that is too long");
    }
    let mut text = String::new(rt.alloc());
    for _ in 0..bytes {
        text.push_str("#")?;
    }
    let read = script(rt, text.as_str(), 1);
    drop(text);
    drop(read?);
    Ok(())
}

/// The book of a history, as far as its entries are lawful.
fn book_of(alloc: Global, journal: &Journal) -> Result<Book, Error> {
    let Ok(mut book) = Book::opening(alloc, journal.opened.as_slice()) else {
        bail!("no memory");
    };
    if let Err(fault) = apply_all(&mut book, journal) {
        drop(book);
        return Err(fault);
    }
    Ok(book)
}

fn apply_all(book: &mut Book, journal: &Journal) -> Result<(), Error> {
    for entry in journal.entries.as_slice() {
        match book.apply(entry) {
            Ok(()) | Err(BookFault::Unlawful { .. }) => {}
            Err(BookFault::NoMemory) => bail!("no memory"),
        }
    }
    Ok(())
}

/// The output of a run that had the history.
fn output_of(alloc: Global, script: &Script, journal: &Journal) -> Result<Bytes, Error> {
    let book = book_of(alloc, journal)?;
    let out = out_text(alloc, script, &journal.entries, &book, true);
    drop(book);
    match out {
        Ok(out) => Ok(out),
        Err(_) => bail!("no memory"),
    }
}

/// Prints a history that was read, and behind it the output of a run that had it.
fn show_history<R: AllocGlobal + Print>(
    rt: &R,
    script: &Script,
    journal: &Journal,
) -> Result<(), Error> {
    println!(rt; "  the entries begin at line {}", journal.first)?;
    for node in journal.opened.as_slice() {
        println!(rt; "  {node:?}")?;
    }
    for entry in journal.entries.as_slice() {
        println!(rt; "  {entry:?}")?;
    }
    let out = output_of(rt.alloc(), script, journal)?;
    let out = str::from_utf8(out.as_slice()).context("no text")?;
    print!(rt; "{out}")?;
    Ok(())
}

/// Reads a history, and prints it or the line of its fault.
fn history<R: AllocGlobal + Print>(rt: &R, text: &str, script: &Script) -> Result<(), Error> {
    match read_journal(rt.alloc(), text.as_bytes()) {
        Ok(journal) => {
            let shown = show_history(rt, script, &journal);
            drop(journal);
            shown
        }
        Err(JournalFailed::Fault { line }) => {
            println!(rt; "  no history at line {line}")?;
            Ok(())
        }
        Err(JournalFailed::NoMemory) => bail!("no memory"),
    }
}

/// The lines that wait to be read, and the last script.
#[derive(Drop)]
pub(crate) struct Texts {
    lines: String,
    script: Option<Script>,
}

impl Texts {
    pub(crate) fn new(alloc: Global) -> Texts {
        Texts {
            lines: String::new(alloc),
            script: None,
        }
    }

    /// Reads a line: words, what is asked for, or a line that waits.
    pub(crate) fn add<R: AllocGlobal + Print>(&mut self, rt: &R, line: &str) -> Result<(), Error> {
        if let Some(line) = line.strip_prefix("$ ") {
            words(rt, line)
        } else if let Some(task) = line.strip_prefix("? ") {
            self.ask(rt, task)
        } else {
            add_line(&mut self.lines, line)
        }
    }

    /// Does what a line behind `? ` asks for.
    fn ask<R: AllocGlobal + Print>(&mut self, rt: &R, line: &str) -> Result<(), Error> {
        let (task, words) = line.split_once(' ').unwrap_or((line, ""));
        self.carry_out(rt, task, words)?;
        self.lines.clear();
        Ok(())
    }

    fn carry_out<R: AllocGlobal + Print>(
        &mut self,
        rt: &R,
        task: &str,
        words: &str,
    ) -> Result<(), Error> {
        match task {
            "script" => self.read_lines(rt, words),
            "history" => self.show_lines(rt),
            "client" => self.seat(words),
            "long" => long(rt, words),
            "waiting" => waits(rt, words),
            _ => bail!("nothing is asked for"),
        }
    }

    /// Reads the lines that wait as a script for so many nodes.
    fn read_lines<R: AllocGlobal + Print>(&mut self, rt: &R, nodes: &str) -> Result<(), Error> {
        let nodes = nodes.parse::<u8>().context("how many nodes?")?;
        let read = script(rt, self.lines.as_str(), nodes)?;
        drop(mem::replace(&mut self.script, read));
        Ok(())
    }

    /// Reads the lines that wait as a history, behind the last script.
    fn show_lines<R: AllocGlobal + Print>(&self, rt: &R) -> Result<(), Error> {
        let script = self.script.as_ref().context("no script")?;
        history(rt, self.lines.as_str(), script)
    }

    /// Gives the last script a client of this number.
    fn seat(&mut self, number: &str) -> Result<(), Error> {
        let script = self.script.as_mut().context("no script")?;
        add_client(script, number.parse::<u8>().context("which client?")?)
    }
}
