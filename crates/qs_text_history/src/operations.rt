//! The operations that words spell.
ghost use Rattle.std.specs.Prelude.{◌≡◌, IfOk, map};
ghost use Rattle.qs_text_history.specs.Inner.Operations.{op_of, bare_op, op_on, lend_of, named_op, op_with, timer_of, extra_of, text_op};

use crate::words::{is, u8_of, u32_of};
use qs_base::{Bytes, ClientNo, NoMemory};
use qs_ops::Op;
use std::alloc::Global;

/// The operation that the words spell.
#[tactic(auto, unfolding(crate::specs::Inner::Operations::op_of))]
pub fn op_of(alloc: Global, words: &[&[u8]]) -> Result<Option<Op>, NoMemory>
    ensures { IfOk result (λ op. op ≡ op_of (map (λ word. word.now) words.now)) }
{
    if let [word] = words {
        return Ok(bare_op(*word));
    }
    if let [word, name] = words {
        return named_op(alloc, *word, *name);
    }
    if let [word, name, text] = words {
        return text_op(alloc, *word, *name, *text);
    }
    Ok(None)
}

/// The operation that one word spells.
fn bare_op(word: &[u8]) -> Option<Op>
    ensures { result ≡ bare_op word.now }
{
    if is(word, "list") {
        Some(Op::Listing)
    } else if is(word, "notes") {
        Some(Op::Notes)
    } else {
        None
    }
}

/// The operation that two words spell.
fn named_op(alloc: Global, word: &[u8], name: &[u8]) -> Result<Option<Op>, NoMemory>
    ensures { IfOk result (λ op. op ≡ named_op word.now name.now) }
{
    if is(word, "lend") {
        return Ok(lend_of(name));
    }
    let name = Bytes::from_slice(alloc, name)?;
    Ok(op_on(word, name))
}

/// The loan to the client of that number.
fn lend_of(client: &[u8]) -> Option<Op>
    ensures { result ≡ lend_of client.now }
{
    let client = u8_of(client)?;
    Some(Op::Lend {
        client: ClientNo(client),
    })
}

/// The operation of this word on a name, or that notes a text.
fn op_on(word: &[u8], name: Bytes) -> Option<Op>
    ensures { result ≡ op_on word.now name }
{
    if is(word, "del") {
        Some(Op::Del { name })
    } else if is(word, "get") {
        Some(Op::Get { name })
    } else if is(word, "note") {
        Some(Op::Note { text: name })
    } else if is(word, "find") {
        Some(Op::Find { name })
    } else if is(word, "left") {
        Some(Op::Left { name })
    } else if is(word, "title") {
        Some(Op::Title { name })
    } else if is(word, "fetch") {
        Some(Op::Fetch { name })
    } else {
        None
    }
}

/// The operation that three words spell.
fn text_op(alloc: Global, word: &[u8], name: &[u8], text: &[u8]) -> Result<Option<Op>, NoMemory>
    ensures { IfOk result (λ op. op ≡ text_op word.now name.now text.now) }
{
    if is(word, "timer") {
        return Ok(timer_of(Bytes::from_slice(alloc, name)?, text));
    }
    if is(word, "extra") {
        return Ok(extra_of(name, Bytes::from_slice(alloc, text)?));
    }
    let name = Bytes::from_slice(alloc, name)?;
    let text = Bytes::from_slice(alloc, text)?;
    Ok(op_with(word, name, text))
}

/// The timer of this name for so many ticks.
fn timer_of(name: Bytes, ticks: &[u8]) -> Option<Op>
    ensures { result ≡ timer_of name ticks.now }
{
    let ticks = u32_of(ticks)?;
    Some(Op::Timer { name, ticks })
}

/// The further server's operation of that code.
fn extra_of(code: &[u8], text: Bytes) -> Option<Op>
    ensures { result ≡ extra_of code.now text }
{
    let code = u32_of(code)?;
    Some(Op::Extra { code, text })
}

/// The operation of this word on a name, with a text.
fn op_with(word: &[u8], name: Bytes, text: Bytes) -> Option<Op>
    ensures { result ≡ op_with word.now name text }
{
    if is(word, "put") {
        Some(Op::Put { name, text })
    } else if is(word, "append") {
        Some(Op::Append { name, text })
    } else if is(word, "bind") {
        Some(Op::Bind { name, text })
    } else if is(word, "window") {
        Some(Op::Window { name, text })
    } else if is(word, "keep") {
        Some(Op::Keep { name, text })
    } else {
        None
    }
}
