//! Words of a line, and what they spell.
ghost use Rattle.std.specs.Prelude.{◌≡◌, ◌&&◌, map, length};
ghost use Rattle.qs_book_script.specs.Statements.{word_at, or_last, number_at, low, node_at, client_at, is_number_at, is_label_at, are_numbers_to, is_addressed, is_kind, kind_of};

use crate::line::{is_label, is_word};
use crate::number::{is_decimal, number_of};
use qs_base::{ClientNo, NodeNo};
use qs_book_journal::PointKind;

/// The last number of a node or client that an identifier has room for; none is as great.
const LAST_SMALL: u8 = 255;

/// How many words there are.
pub fn word_count(words: &[&[u8]]) -> usize
    ensures { result ≡ length (map (λ word. word.now) words.now) }
{
    words.len()
}

/// The word at a place, from 0; the empty one past the end.
pub fn word_at<'a>(words: &[&'a [u8]], at: usize) -> &'a [u8]
    ensures { result.now ≡ word_at (map (λ word. word.now) words.now) at }
{
    match words.get(at) {
        Some(word) => *word,
        None => &[],
    }
}

/// The number of 64 bits at a place; the last one for a word that is none, and for one past it.
pub fn number_at(words: &[&[u8]], at: usize) -> u64
    ensures { result ≡ number_at (map (λ word. word.now) words.now) at }
{
    or_last(number_of(word_at(words, at)))
}

/// The number, or the last one.
fn or_last(number: Option<u64>) -> u64
    ensures { result ≡ or_last number }
{
    match number {
        Some(number) => number,
        None => u64::MAX,
    }
}

/// The number in the room of an identifier; what is past it is read as the last.
fn small(number: u64) -> u8
    ensures { result ≡ low 255 number }
{
    if number < u64::from(LAST_SMALL) {
        number as u8
    } else {
        LAST_SMALL
    }
}

/// The node at a place.
pub fn node_at(words: &[&[u8]], at: usize) -> NodeNo
    ensures { result ≡ node_at (map (λ word. word.now) words.now) at }
{
    NodeNo(small(number_at(words, at)))
}

/// The client at a place.
pub fn client_at(words: &[&[u8]], at: usize) -> ClientNo
    ensures { result ≡ client_at (map (λ word. word.now) words.now) at }
{
    ClientNo(small(number_at(words, at)))
}

/// The ticks at a place; what is past 32 bits is read as their last number.
pub fn ticks_at(words: &[&[u8]], at: usize) -> u32
    ensures { result ≡ low 4294967295 (number_at (map (λ word. word.now) words.now) at) }
{
    let number = number_at(words, at);
    if number < u64::from(u32::MAX) {
        number as u32
    } else {
        u32::MAX
    }
}

/// Whether the word at a place is a number, of whatever length.
pub fn is_number_at(words: &[&[u8]], at: usize) -> bool
    ensures { result ≡ is_number_at (map (λ word. word.now) words.now) at }
{
    is_decimal(word_at(words, at))
}

/// Whether the word at a place is a label.
pub fn is_label_at(words: &[&[u8]], at: usize) -> bool
    ensures { result ≡ is_label_at (map (λ word. word.now) words.now) at }
{
    is_label(word_at(words, at))
}

/// Whether numbers stand at the places 1 and 2.
pub fn are_two_numbers(words: &[&[u8]]) -> bool
    ensures { result ≡ (is_number_at (map (λ word. word.now) words.now) 1 && is_number_at (map (λ word. word.now) words.now) 2) }
{
    is_number_at(words, 1) && is_number_at(words, 2)
}

/// Whether numbers stand at the places 1, 2 and 3.
pub fn are_three_numbers(words: &[&[u8]]) -> bool
    ensures { result ≡ are_numbers_to (map (λ word. word.now) words.now) 3 }
{
    is_number_at(words, 1) && is_number_at(words, 2) && is_number_at(words, 3)
}

/// Whether a client's line has a label and a number in the places of label and node.
pub fn is_addressed(words: &[&[u8]]) -> bool
    ensures { result ≡ is_addressed (map (λ word. word.now) words.now) }
{
    is_label_at(words, 2) && is_number_at(words, 3)
}

/// Whether the word is a kind of entry that a fault line may name.
pub fn is_kind(word: &[u8]) -> bool
    ensures { result ≡ is_kind word.now }
{
    is_word(word, "serve")
        || is_word(word, "vote")
        || is_word(word, "decide")
        || is_word(word, "learn")
}

/// The kind of entry that the word names.
pub fn kind_of(word: &[u8]) -> PointKind
    ensures { result ≡ kind_of word.now }
{
    if is_word(word, "serve") {
        PointKind::Serve
    } else if is_word(word, "vote") {
        PointKind::Vote
    } else if is_word(word, "decide") {
        PointKind::Decide
    } else {
        PointKind::Learn
    }
}
