//! The words of a line, and the numbers that they spell.
ghost use Rattle.std.specs.Prelude.{◌≡◌, ◌^◌, ◌==◌, ◌<◌, length, IfOk, IfSome, map};
ghost use Rattle.std.specs.List.{slice_split, list_all, position};
ghost use Rattle.qs_base.specs.Order.{same_bytes};
ghost use Rattle.qs_book_script.specs.Numbers.{below};
ghost use Rattle.qs_text_history.specs.Words.{is_word, is_letter};
ghost use Rattle.qs_text_history.specs.Inner.Words.{wide_of, words_of, number_below, before, after};

use qs_base::NoMemory;
use qs_text_script::number_of;
use std::alloc::{AllocError, Global};

/// The words of a line: what stands between its blanks, and nothing where one of these parts is
/// no word.
#[tactic(auto, unfolding(crate::specs::Inner::Words::words_of))]
pub fn words_of(alloc: Global, line: &[u8]) -> Result<Vec<&[u8]>, NoMemory>
    ensures { IfOk result (λ words. map (λ word. word.now) words.items ≡ words_of line.now) }
{
    let words = parts_of(alloc, line)?;
    if are_words(words.as_slice()) {
        Ok(words)
    } else {
        Ok(Vec::new(alloc))
    }
}

/// What stands between the blanks of a line.
fn parts_of(alloc: Global, line: &[u8]) -> Result<Vec<&[u8]>, AllocError>
    ensures { IfOk result (λ words. map (λ word. word.now) words.items ≡ slice_split (λ byte. byte == 32) line.now) }
{
    line.split(|byte| *byte == b' ').collect(alloc)
}

/// Whether all of them are words.
fn are_words(words: &[&[u8]]) -> bool
    ensures { result ≡ list_all is_word (map (λ word. word.now) words.now) }
{
    words.iter().all(|word| is_word(*word))
}

/// Whether it has a byte, and each byte may stand in a word.
pub fn is_word(word: &[u8]) -> bool
    ensures { result ≡ is_word word.now }
{
    0 < word.len() && has_letters(word)
}

/// Whether each byte may stand in a word.
fn has_letters(word: &[u8]) -> bool
    ensures { result ≡ list_all is_letter word.now }
{
    word.iter().all(|byte| is_letter(*byte))
}

/// Whether the byte may stand in a word.
fn is_letter(byte: u8) -> bool
    ensures { result ≡ is_letter byte }
{
    33 <= byte && byte <= 126
}

/// Whether the word is that text.
pub fn is(word: &[u8], text: &str) -> bool
    ensures { result ≡ same_bytes word.now text.now }
{
    word == text.as_bytes()
}

/// What stands before the first byte that is the mark, or all where there is none.
pub fn before(word: &[u8], mark: u8) -> &[u8]
    ensures { result.now ≡ before mark word.now }
{
    match place(word, mark) {
        Some(at) => {
            let (front, _) = word.split_at(at);
            front
        }
        None => word,
    }
}

/// What stands behind the first byte that is the mark, or nothing where there is none.
pub fn after(word: &[u8], mark: u8) -> &[u8]
    ensures { result.now ≡ after mark word.now }
{
    match place(word, mark) {
        Some(at) => {
            let (_, rest) = word.split_at(at + 1);
            rest
        }
        None => &[],
    }
}

/// The place of the first byte that is the mark.
fn place(word: &[u8], mark: u8) -> Option<usize>
    ensures place { result ≡ position (λ byte. byte == mark) word.now }
    ensures inside { IfSome result (λ at. at < length word.now) }
{
    word.iter().position(|byte| *byte == mark)
}

/// The number of 64 bits that the word is.
#[tactic(auto, unfolding(crate::specs::Inner::Words::wide_of))]
pub fn u64_of(word: &[u8]) -> Option<u64>
    ensures { result ≡ wide_of word.now }
{
    number_of(word)
}

/// The number of 32 bits that the word is.
#[tactic(auto, unfolding(crate::specs::Inner::Words::number_below))]
pub fn u32_of(word: &[u8]) -> Option<u32>
    ensures { result ≡ number_below (2 ^ 32) word.now }
{
    let number = u64_of(word)?;
    if number < 4_294_967_296 {
        Some(number as u32)
    } else {
        None
    }
}

/// The number of 8 bits that the word is.
#[tactic(auto, unfolding(crate::specs::Inner::Words::number_below))]
pub fn u8_of(word: &[u8]) -> Option<u8>
    ensures { result ≡ number_below 256 word.now }
{
    let number = u64_of(word)?;
    if number < 256 {
        Some(number as u8)
    } else {
        None
    }
}
