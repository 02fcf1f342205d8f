//! The output of a run.
ghost use Rattle.std.specs.Prelude.{◌≡◌, ◌==◌, ◌++◌, List, ℕ, IfOk, OnOk, string_bytes};
ghost use Rattle.std.specs.List.{flat_map, list_any};
ghost use Rattle.qs_text.specs.Output.{out_of, client_part, client_text, clients_text, entry_text, line_text, nodes_text, node_line, node_text, file_text, note_text, totals_text, totals_line, shown_journal};

use crate::answers::put;
use crate::journal::put_journal;
use crate::labels::put_told;
use crate::totals::{aborted, begun, committed, restarts};
use qs_base::{Bytes, ClientNo, List, NoMemory, NodeNo};
use qs_book::{Book, BookNode};
use qs_book_journal::{Act, Entry};
use qs_ops::{Answer, File};
use qs_text_script::{Script, Seat};
use std::alloc::{AllocError, Global};

/// How many numbers of clients there are.
const CLIENT_NUMBERS: u16 = 256;

/// The output of a run: for each client by number the answers to it, in the order of the history; for
/// each node its files, in byte order of their names, and its notes; the totals; and with `journal`
/// the history, a line for each entry.
pub fn out_text(
    alloc: Global,
    script: &Script,
    history: &List<Entry>,
    book: &Book,
    journal: bool,
) -> Result<Bytes, NoMemory>
    ensures { IfOk result (λ out. out ≡ out_of script.now history.now book.now journal) }
{
    let mut out = Bytes::new(alloc);
    put_clients(
        alloc,
        &mut out,
        script.seats.as_slice(),
        history.as_slice(),
        book,
    )?;
    put_nodes(alloc, &mut out, book)?;
    put_totals(alloc, &mut out, history.as_slice(), book)?;
    put_shown(alloc, &mut out, history.as_slice(), book, journal)?;
    Ok(out)
}

/// Adds the history, where the journal is asked for.
fn put_shown(
    alloc: Global,
    out: &mut Bytes,
    history: &[Entry],
    book: &Book,
    journal: bool,
) -> Result<(), NoMemory>
    ensures { OnOk result (out.new ≡ out.old ++ shown_journal history.now book.now journal) }
{
    if !journal {
        return Ok(());
    }
    put_journal(alloc, out, history, book)
}

/// Adds the clients by number, each with its answers.
fn put_clients(
    alloc: Global,
    out: &mut Bytes,
    seats: &[Seat],
    history: &[Entry],
    book: &Book,
) -> Result<(), NoMemory>
    ensures { OnOk result (out.new ≡ out.old ++ clients_text seats.now history.now book.now 0 256) }
{
    for number in 0..CLIENT_NUMBERS {
        put_client_part(alloc, out, seats, history, book, ClientNo(number as u8))?;
    }
    Ok(())
}

/// Adds the client with its answers, if it has a seat.
fn put_client_part(
    alloc: Global,
    out: &mut Bytes,
    seats: &[Seat],
    history: &[Entry],
    book: &Book,
    client: ClientNo,
) -> Result<(), NoMemory>
    ensures { OnOk result (out.new ≡ out.old ++ client_part seats.now history.now book.now client.0) }
{
    if !has_seat(seats, client) {
        return Ok(());
    }
    put_client(alloc, out, client, history, book)
}

/// Whether the client has a seat.
fn has_seat(seats: &[Seat], client: ClientNo) -> bool
    ensures { result ≡ list_any (λ seat. seat.client.0 == client.0) seats.now }
{
    seats.iter().any(|seat| seat.client.0 == client.0)
}

/// Adds a client with its answers.
fn put_client(
    alloc: Global,
    out: &mut Bytes,
    client: ClientNo,
    history: &[Entry],
    book: &Book,
) -> Result<(), NoMemory>
    ensures { OnOk result (out.new ≡ out.old ++ client_text history.now book.now client) }
{
    put(out, format!(in alloc; "client {}\n", client.0)?)?;
    put_lines(alloc, out, client, history, book)
}

/// Adds the answers to a client.
fn put_lines(
    alloc: Global,
    out: &mut Bytes,
    client: ClientNo,
    history: &[Entry],
    book: &Book,
) -> Result<(), NoMemory>
    ensures { OnOk result (out.new ≡ out.old ++ flat_map (entry_text book.now client) history.now) }
{
    for entry in history {
        put_entry(alloc, out, client, entry, book)?;
    }
    Ok(())
}

/// Adds the answer that an entry gives to the client, if it gives one.
fn put_entry(
    alloc: Global,
    out: &mut Bytes,
    client: ClientNo,
    entry: &Entry,
    book: &Book,
) -> Result<(), NoMemory>
    ensures { OnOk result (out.new ≡ out.old ++ entry_text book.now client entry.now) }
{
    match &entry.act {
        Act::Answer {
            client: other,
            line,
            answer,
        } if other.0 == client.0 => put_line(alloc, out, *line, answer, book),
        _ => Ok(()),
    }
}

/// Adds a line and the answer to its command.
fn put_line(
    alloc: Global,
    out: &mut Bytes,
    line: u32,
    answer: &Answer,
    book: &Book,
) -> Result<(), NoMemory>
    ensures { OnOk result (out.new ≡ out.old ++ line_text book.now line answer.now) }
{
    put_told(alloc, out, line, answer, book)?;
    out.append("\n".as_bytes())
}

/// Adds the nodes, each with its files and notes.
fn put_nodes(alloc: Global, out: &mut Bytes, book: &Book) -> Result<(), NoMemory>
    ensures { OnOk result (out.new ≡ out.old ++ nodes_text 0 book.now.nodes) }
{
    let mut number: u8 = 0;
    while let Some(node) = book.state(NodeNo(number)) {
        put_node(alloc, out, number, node)?;
        let Some(next) = number.checked_add(1) else {
            return Ok(());
        };
        number = next;
    }
    Ok(())
}

/// Adds a node, its files and its notes.
fn put_node(alloc: Global, out: &mut Bytes, number: u8, node: &BookNode) -> Result<(), NoMemory>
    ensures { OnOk result (out.new ≡ out.old ++ node_text number node.now) }
{
    put_node_line(alloc, out, number, node)?;
    put_files(out, node.files().contents().as_slice())?;
    put_notes(out, node.audit().notes().as_slice())
}

/// Adds the number and the incarnation of a node.
fn put_node_line(
    alloc: Global,
    out: &mut Bytes,
    number: u8,
    node: &BookNode,
) -> Result<(), NoMemory>
    ensures { OnOk result (out.new ≡ out.old ++ node_line number node.now) }
{
    put(
        out,
        format!(in alloc; "node {} inc {}\n", number, node.inc())?,
    )
}

/// Adds files.
fn put_files(out: &mut Bytes, files: &[File]) -> Result<(), NoMemory>
    ensures { OnOk result (out.new ≡ out.old ++ flat_map file_text files.now) }
{
    for file in files {
        put_file(out, file)?;
    }
    Ok(())
}

/// Adds a file.
fn put_file(out: &mut Bytes, file: &File) -> Result<(), NoMemory>
    ensures { OnOk result (out.new ≡ out.old ++ file_text file.now) }
{
    out.append("file ".as_bytes())?;
    out.append(file.name.as_slice())?;
    out.append(" ".as_bytes())?;
    out.append(file.content.as_slice())?;
    out.append("\n".as_bytes())
}

/// Adds notes.
fn put_notes(out: &mut Bytes, notes: &[Bytes]) -> Result<(), NoMemory>
    ensures { OnOk result (out.new ≡ out.old ++ flat_map note_text notes.now) }
{
    for note in notes {
        put_note(out, note)?;
    }
    Ok(())
}

/// Adds a note.
fn put_note(out: &mut Bytes, note: &Bytes) -> Result<(), NoMemory>
    ensures { OnOk result (out.new ≡ out.old ++ note_text note.now) }
{
    out.append("note ".as_bytes())?;
    out.append(note.as_slice())?;
    out.append("\n".as_bytes())
}

/// Adds the totals.
fn put_totals(
    alloc: Global,
    out: &mut Bytes,
    history: &[Entry],
    book: &Book,
) -> Result<(), NoMemory>
    ensures { OnOk result (out.new ≡ out.old ++ totals_text history.now book.now) }
{
    let text = totals_line(
        alloc,
        begun(book),
        committed(book),
        aborted(book),
        restarts(history),
    )?;
    put(out, text)
}

/// The line of the totals.
fn totals_line(
    alloc: Global,
    begun: usize,
    committed: usize,
    aborted: usize,
    restarts: usize,
) -> Result<String, AllocError>
    ensures { IfOk result (λ line. string_bytes line ≡ totals_line begun committed aborted restarts) }
{
    format!(in alloc;
        "totals begun {begun} committed {committed} aborted {aborted} restarts {restarts}\n"
    )
}
