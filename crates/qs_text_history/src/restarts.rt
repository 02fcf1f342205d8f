//! What a restart found, as words spell it.
ghost use Rattle.std.specs.Prelude.{◌≡◌, ◌≤◌, Some, IfOk, map, take, drop, length};
ghost use Rattle.std.specs.List.{position};
ghost use Rattle.qs_text_history.specs.Inner.Acts.{restart_of, restart_with, all_of, done_place};
ghost use Rattle.qs_text_history.specs.Inner.Words.{found_of, done_of, is_done};

use crate::identifiers::{done_of, found_of, is_done};
use crate::words::u64_of;
use qs_base::{List, NoMemory, Tid};
use qs_book_journal::{Act, Found};
use std::alloc::Global;

/// That a node started, and what it found.
#[tactic(auto, unfolding(crate::specs::Inner::Acts::restart_of))]
pub fn restart_of(alloc: Global, words: &[&[u8]]) -> Result<Option<Act>, NoMemory>
    ensures { IfOk result (λ act. act ≡ restart_of (map (λ word. word.now) words.now)) }
{
    let [inc, found @ ..] = words else {
        return Ok(None);
    };
    let Some(inc) = u64_of(*inc) else {
        return Ok(None);
    };
    let (pend, done) = split(found);
    let pend = all_found(alloc, pend)?;
    let done = all_done(alloc, done)?;
    Ok(restart_with(inc, pend, done))
}

/// The restart of these.
fn restart_with(inc: u64, pend: Option<List<Found>>, done: Option<List<Tid>>) -> Option<Act>
    ensures { result ≡ restart_with (Some inc) pend done }
{
    let pend = pend?;
    let done = done?;
    Some(Act::Restart { inc, pend, done })
}

/// The words before the first `done:`, and those from it on.
fn split<'a, 'b>(words: &'a [&'b [u8]]) -> (&'a [&'b [u8]], &'a [&'b [u8]])
    ensures front { map (λ word. word.now) result.0.now ≡ take (done_place (map (λ word. word.now) words.now)) (map (λ word. word.now) words.now) }
    ensures back { map (λ word. word.now) result.1.now ≡ drop (done_place (map (λ word. word.now) words.now)) (map (λ word. word.now) words.now) }
{
    words.split_at(done_place(words))
}

/// The place of the first `done:`, or how many words there are.
#[tactic(auto, unfolding(crate::specs::Inner::Acts::done_place))]
fn done_place(words: &[&[u8]]) -> usize
    ensures place { result ≡ done_place (map (λ word. word.now) words.now) }
    ensures inside { result ≤ length words.now }
{
    let mut at = 0;
    for word in words {
        if is_done(*word) {
            return at;
        }
        at += 1;
    }
    at
}

/// The Prepares of the words.
fn all_found(alloc: Global, words: &[&[u8]]) -> Result<Option<List<Found>>, NoMemory>
    ensures { IfOk result (λ list. list ≡ all_of found_of (map (λ word. word.now) words.now)) }
{
    let mut list = List::new(alloc);
    for word in words {
        let Some(found) = found_of(*word) else {
            return Ok(None);
        };
        list.push(found)?;
    }
    Ok(Some(list))
}

/// The transactions of the words.
fn all_done(alloc: Global, words: &[&[u8]]) -> Result<Option<List<Tid>>, NoMemory>
    ensures { IfOk result (λ list. list ≡ all_of done_of (map (λ word. word.now) words.now)) }
{
    let mut list = List::new(alloc);
    for word in words {
        let Some(tid) = done_of(*word) else {
            return Ok(None);
        };
        list.push(tid)?;
    }
    Ok(Some(list))
}
