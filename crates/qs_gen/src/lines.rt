//! The lines of a load script.
ghost use Rattle.std.specs.Prelude.{◌≡◌, Some, IfOk, string_bytes};
ghost use Rattle.qs_gen.specs.Lines.{client_line, label_text, begin_line, hex_digits, put_line, end_word, end_line};

use std::alloc::{AllocError, Global};
use std::fmt;

/// How many nodes a load script is for.
pub const NODE_COUNT: u8 = 4;

/// A word that this divides ends its transaction by an abort.
const ABORT_DIVISOR: u32 = 8;

/// The label of a transaction: the number of its client, and its own among those of the client, from 0.
#[derive(Clone, Copy)]
pub struct Label {
    pub client: u8,
    pub number: u8,
}

impl fmt::Display for Label {
    ghost output = { λ label. Some (label_text label) };

    fn fmt<W: fmt::Write>(&self, f: &mut fmt::Formatter<W>) -> fmt::Result {
        write!(f, "c{}t{}", self.client, self.number)
    }
}

/// The line of a client, which sits at a node.
pub fn client_line(alloc: Global, client: u8) -> Result<String, AllocError>
    ensures { IfOk result (λ line. string_bytes line ≡ client_line client) }
{
    format!(in alloc; "client {client} {}\n", client % NODE_COUNT)
}

/// The line that begins a transaction.
pub fn begin_line(alloc: Global, label: Label) -> Result<String, AllocError>
    ensures { IfOk result (λ line. string_bytes line ≡ begin_line label) }
{
    format!(in alloc; "{} begin {label}\n", label.client)
}

/// The line that puts a file of a transaction: at the node that the first word tells, with the second word as its text.
pub fn put_line(
    alloc: Global,
    label: Label,
    file: u8,
    node_word: u32,
    text_word: u32,
) -> Result<String, AllocError>
    ensures { IfOk result (λ line. string_bytes line ≡ put_line label file node_word text_word) }
{
    let node = node_word % u32::from(NODE_COUNT);
    let text = hex_text(alloc, text_word)?;
    format!(in alloc;
        "{} put {label} {node} {label}p{file} {text}\n",
        label.client
    )
}

/// The eight hexadecimal digits of a word.
fn hex_text(alloc: Global, word: u32) -> Result<String, AllocError>
    ensures { IfOk result (λ text. string_bytes text ≡ hex_digits 8 word) }
{
    format!(in alloc; "{word:08x}")
}

/// The line that ends a transaction, by the word.
pub fn end_line(alloc: Global, label: Label, word: u32) -> Result<String, AllocError>
    ensures { IfOk result (λ line. string_bytes line ≡ end_line label word) }
{
    format!(in alloc; "{} {} {label}\n", label.client, end_word(word))
}

fn end_word(word: u32) -> &'static str
    ensures { result.now ≡ end_word word }
{
    if word % ABORT_DIVISOR == 0 {
        "abort"
    } else {
        "commit"
    }
}
