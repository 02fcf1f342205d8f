//! What is given of a run.
ghost use Rattle.std.specs.Prelude.{◌≡◌, IfOk, string_bytes};
ghost use Rattle.hex.specs.Hex.{encode_lower};
ghost use Rattle.sha2.specs.Sha256.{sha256};
ghost use Rattle.qs_text.specs.Given.{given_of, load_line, load_of};

use crate::answers::put;
use crate::output::out_text;
use crate::totals::{aborted, committed};
use qs_base::{Bytes, List, NoMemory};
use qs_book::Book;
use qs_book_journal::Entry;
use qs_text_script::Script;
use sha2::{Digest, Sha256};
use std::alloc::{AllocError, Global};

/// What is given of a run.
#[derive(Clone, Copy)]
pub enum Shown {
    /// Its output.
    Output,
    /// Its output, and behind it the history.
    Journal,
    /// One line: of a load of this seed, how many commands it has, how many of its transactions committed and aborted,
    /// and the digest of its output.
    Load { seed: u64 },
}

/// What is given of a run: its output, as `out_text` makes it, or the line of a load.
pub fn given_text(
    alloc: Global,
    script: &Script,
    history: &List<Entry>,
    book: &Book,
    shown: Shown,
) -> Result<Bytes, NoMemory>
    ensures { IfOk result (λ text. text ≡ given_of script.now history.now book.now shown) }
{
    match shown {
        Shown::Output => out_text(alloc, script, history, book, false),
        Shown::Journal => out_text(alloc, script, history, book, true),
        Shown::Load { seed } => load_text(alloc, seed, script, history, book),
    }
}

/// The line of a load.
fn load_text(
    alloc: Global,
    seed: u64,
    script: &Script,
    history: &List<Entry>,
    book: &Book,
) -> Result<Bytes, NoMemory>
    ensures { IfOk result (λ text. text ≡ load_of seed script.now history.now book.now) }
{
    let output = out_text(alloc, script, history, book, false)?;
    let digest = digest_text(alloc, output.as_slice())?;
    let commands = script.lines.as_slice().len();
    let line = load_line(
        alloc,
        seed,
        commands,
        committed(book),
        aborted(book),
        digest.as_str(),
    )?;
    let mut text = Bytes::new(alloc);
    put(&mut text, line)?;
    Ok(text)
}

/// The SHA-256 of these bytes, in lower-case digits.
fn digest_text(alloc: Global, bytes: &[u8]) -> Result<String, AllocError>
    ensures { IfOk result (λ text. string_bytes text ≡ encode_lower (sha256 bytes.now)) }
{
    hex::encode(alloc, Sha256::digest(bytes))
}

fn load_line(
    alloc: Global,
    seed: u64,
    commands: usize,
    committed: usize,
    aborted: usize,
    digest: &str,
) -> Result<String, AllocError>
    ensures { IfOk result (λ line. string_bytes line ≡ load_line seed commands committed aborted digest.now) }
{
    format!(in alloc;
        "load {seed} commands {commands} committed {committed} aborted {aborted} digest {digest}\n"
    )
}
