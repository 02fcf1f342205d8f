//! Lines of clients: their commands.
ghost use Rattle.std.specs.Prelude.{◌≡◌, ◌&&◌, IfOk, map};
ghost use Rattle.qs_book_script.specs.Statements.{is_short, short_command, short_line, lend_line, request, is_text_word, text_request, text_line, is_name_word, name_request, name_line, timer_line, note_line, list_line, notes_line, command_line, other_line, client_says, is_addressed, is_number_at};

use crate::head_lines::{bad_count, bad_word};
use crate::line::is_word;
use crate::spelling::{
    client_at, is_addressed, is_label_at, is_number_at, node_at, ticks_at, word_at, word_count,
};
use crate::statement::Statement;
use qs_base::{Bytes, Member, NoMemory, ServerNo};
use qs_book_journal::Command;
use qs_ops::Op;
use qs_ops::servers::{AUDIT, FILES, NAMES, SCRATCH, TIMERS, WINDOWS};
use std::alloc::Global;

/// Whether it is the word of a command that needs a label alone.
fn is_short(word: &[u8]) -> bool
    ensures { result ≡ is_short word.now }
{
    is_word(word, "begin")
        || is_word(word, "commit")
        || is_word(word, "abort")
        || is_word(word, "take")
        || is_word(word, "yield")
}

/// The command of such a word.
fn short_command(word: &[u8]) -> Command
    ensures { result ≡ short_command word.now }
{
    if is_word(word, "begin") {
        Command::Begin
    } else if is_word(word, "commit") {
        Command::Commit
    } else if is_word(word, "abort") {
        Command::Abort
    } else if is_word(word, "take") {
        Command::Take
    } else {
        Command::Yield
    }
}

/// `K begin T`, `K commit T`, `K abort T`, `K take T` or `K yield T`.
fn short_line(alloc: Global, words: &[&[u8]]) -> Result<Statement, NoMemory>
    ensures { IfOk result (λ s. s ≡ short_line (map (λ word. word.now) words.now)) }
{
    if word_count(words) != 3 {
        return Ok(bad_count());
    }
    if !is_label_at(words, 2) {
        return Ok(bad_word());
    }
    Ok(Statement::Order {
        client: client_at(words, 0),
        label: Bytes::from_slice(alloc, word_at(words, 2))?,
        command: short_command(word_at(words, 1)),
    })
}

/// `K lend T J`.
fn lend_line(alloc: Global, words: &[&[u8]]) -> Result<Statement, NoMemory>
    ensures { IfOk result (λ s. s ≡ lend_line (map (λ word. word.now) words.now)) }
{
    if word_count(words) != 4 {
        return Ok(bad_count());
    }
    if !is_addressed(words) {
        return Ok(bad_word());
    }
    Ok(Statement::Lend {
        client: client_at(words, 0),
        label: Bytes::from_slice(alloc, word_at(words, 2))?,
        to: client_at(words, 3),
    })
}

/// A request to a server of the node that the line names.
fn request(alloc: Global, words: &[&[u8]], server: ServerNo, op: Op) -> Result<Statement, NoMemory>
    ensures { IfOk result (λ s. s ≡ request (map (λ word. word.now) words.now) server.0 op) }
{
    let member = Member {
        node: node_at(words, 3),
        server,
    };
    Ok(Statement::Order {
        client: client_at(words, 0),
        label: Bytes::from_slice(alloc, word_at(words, 2))?,
        command: Command::Request { member, op },
    })
}

/// Whether it is the word of a change with a name and a text.
fn is_text_word(word: &[u8]) -> bool
    ensures { result ≡ is_text_word word.now }
{
    is_word(word, "put")
        || is_word(word, "append")
        || is_word(word, "bind")
        || is_word(word, "window")
        || is_word(word, "keep")
}

/// The request of such a word.
fn text_request(
    alloc: Global,
    words: &[&[u8]],
    word: &[u8],
    name: &[u8],
    text: &[u8],
) -> Result<Statement, NoMemory>
    ensures { IfOk result (λ s. s ≡ text_request (map (λ word. word.now) words.now) word.now name.now text.now) }
{
    let name = Bytes::from_slice(alloc, name)?;
    let text = Bytes::from_slice(alloc, text)?;
    if is_word(word, "put") {
        request(alloc, words, FILES, Op::Put { name, text })
    } else if is_word(word, "append") {
        request(alloc, words, FILES, Op::Append { name, text })
    } else if is_word(word, "bind") {
        request(alloc, words, NAMES, Op::Bind { name, text })
    } else if is_word(word, "window") {
        request(alloc, words, WINDOWS, Op::Window { name, text })
    } else {
        request(alloc, words, SCRATCH, Op::Keep { name, text })
    }
}

/// `K put T N NAME TEXT`, and `append`, `bind`, `window`, `keep`.
fn text_line(alloc: Global, words: &[&[u8]]) -> Result<Statement, NoMemory>
    ensures { IfOk result (λ s. s ≡ text_line (map (λ word. word.now) words.now)) }
{
    if word_count(words) != 6 {
        return Ok(bad_count());
    }
    if !is_addressed(words) {
        return Ok(bad_word());
    }
    text_request(
        alloc,
        words,
        word_at(words, 1),
        word_at(words, 4),
        word_at(words, 5),
    )
}

/// Whether it is the word of an operation with a name alone.
fn is_name_word(word: &[u8]) -> bool
    ensures { result ≡ is_name_word word.now }
{
    is_word(word, "get")
        || is_word(word, "del")
        || is_word(word, "find")
        || is_word(word, "left")
        || is_word(word, "title")
        || is_word(word, "fetch")
}

/// The request of such a word.
fn name_request(
    alloc: Global,
    words: &[&[u8]],
    word: &[u8],
    name: &[u8],
) -> Result<Statement, NoMemory>
    ensures { IfOk result (λ s. s ≡ name_request (map (λ word. word.now) words.now) word.now name.now) }
{
    let name = Bytes::from_slice(alloc, name)?;
    if is_word(word, "get") {
        request(alloc, words, FILES, Op::Get { name })
    } else if is_word(word, "del") {
        request(alloc, words, FILES, Op::Del { name })
    } else if is_word(word, "find") {
        request(alloc, words, NAMES, Op::Find { name })
    } else if is_word(word, "left") {
        request(alloc, words, TIMERS, Op::Left { name })
    } else if is_word(word, "title") {
        request(alloc, words, WINDOWS, Op::Title { name })
    } else {
        request(alloc, words, SCRATCH, Op::Fetch { name })
    }
}

/// `K get T N NAME`, and `del`, `find`, `left`, `title`, `fetch`.
fn name_line(alloc: Global, words: &[&[u8]]) -> Result<Statement, NoMemory>
    ensures { IfOk result (λ s. s ≡ name_line (map (λ word. word.now) words.now)) }
{
    if word_count(words) != 5 {
        return Ok(bad_count());
    }
    if !is_addressed(words) {
        return Ok(bad_word());
    }
    name_request(alloc, words, word_at(words, 1), word_at(words, 4))
}

/// Whether label, node and ticks stand in their places.
fn is_timed(words: &[&[u8]]) -> bool
    ensures { result ≡ (is_addressed (map (λ word. word.now) words.now) && is_number_at (map (λ word. word.now) words.now) 5) }
{
    is_addressed(words) && is_number_at(words, 5)
}

/// `K timer T N NAME TICKS`.
fn timer_line(alloc: Global, words: &[&[u8]]) -> Result<Statement, NoMemory>
    ensures { IfOk result (λ s. s ≡ timer_line (map (λ word. word.now) words.now)) }
{
    if word_count(words) != 6 {
        return Ok(bad_count());
    }
    if !is_timed(words) {
        return Ok(bad_word());
    }
    let name = Bytes::from_slice(alloc, word_at(words, 4))?;
    let ticks = ticks_at(words, 5);
    request(alloc, words, TIMERS, Op::Timer { name, ticks })
}

/// `K note T N TEXT`.
fn note_line(alloc: Global, words: &[&[u8]]) -> Result<Statement, NoMemory>
    ensures { IfOk result (λ s. s ≡ note_line (map (λ word. word.now) words.now)) }
{
    if word_count(words) != 5 {
        return Ok(bad_count());
    }
    if !is_addressed(words) {
        return Ok(bad_word());
    }
    let text = Bytes::from_slice(alloc, word_at(words, 4))?;
    request(alloc, words, AUDIT, Op::Note { text })
}

/// `K list T N`.
fn list_line(alloc: Global, words: &[&[u8]]) -> Result<Statement, NoMemory>
    ensures { IfOk result (λ s. s ≡ list_line (map (λ word. word.now) words.now)) }
{
    if word_count(words) != 4 {
        return Ok(bad_count());
    }
    if !is_addressed(words) {
        return Ok(bad_word());
    }
    request(alloc, words, FILES, Op::Listing)
}

/// `K notes T N`.
fn notes_line(alloc: Global, words: &[&[u8]]) -> Result<Statement, NoMemory>
    ensures { IfOk result (λ s. s ≡ notes_line (map (λ word. word.now) words.now)) }
{
    if word_count(words) != 4 {
        return Ok(bad_count());
    }
    if !is_addressed(words) {
        return Ok(bad_word());
    }
    request(alloc, words, AUDIT, Op::Notes)
}

/// The line of a client, by its command word.
fn command_line(alloc: Global, words: &[&[u8]], word: &[u8]) -> Result<Statement, NoMemory>
    ensures { IfOk result (λ s. s ≡ command_line (map (λ word. word.now) words.now) word.now) }
{
    if is_short(word) {
        short_line(alloc, words)
    } else if is_word(word, "lend") {
        lend_line(alloc, words)
    } else if is_text_word(word) {
        text_line(alloc, words)
    } else if is_name_word(word) {
        name_line(alloc, words)
    } else {
        other_line(alloc, words, word)
    }
}

/// The line of a client with one of the command words that are left.
fn other_line(alloc: Global, words: &[&[u8]], word: &[u8]) -> Result<Statement, NoMemory>
    ensures { IfOk result (λ s. s ≡ other_line (map (λ word. word.now) words.now) word.now) }
{
    if is_word(word, "timer") {
        timer_line(alloc, words)
    } else if is_word(word, "note") {
        note_line(alloc, words)
    } else if is_word(word, "list") {
        list_line(alloc, words)
    } else if is_word(word, "notes") {
        notes_line(alloc, words)
    } else {
        Ok(bad_word())
    }
}

/// A line that begins with a client's number.
pub fn client_says(alloc: Global, words: &[&[u8]]) -> Result<Statement, NoMemory>
    ensures { IfOk result (λ s. s ≡ client_says (map (λ word. word.now) words.now)) }
{
    if word_count(words) == 1 {
        return Ok(bad_count());
    }
    command_line(alloc, words, word_at(words, 1))
}
