//! What a line of a script says: its bytes, its leading word, and what follows.
ghost use Rattle.std.specs.Prelude.{◌≡◌, IfOk, map};
ghost use Rattle.qs_book_script.specs.Statements.{led_by, words_state, line_states};

use crate::command_lines::client_says;
use crate::head_lines::{audit_line, client_line, fault_line, quota_line};
use crate::line::{is_readable, is_skipped, is_word, words_of};
use crate::number::is_decimal;
use crate::spelling::word_at;
use crate::statement::Statement;
use crate::status::ScriptFault;
use qs_base::NoMemory;
use std::alloc::Global;

/// What a line says by its words alone.
pub fn line_states(alloc: Global, line: &[u8]) -> Result<Statement, NoMemory>
    ensures { IfOk result (λ s. s ≡ line_states line.now) }
{
    if !is_readable(line) {
        return Ok(Statement::Unreadable {
            fault: ScriptFault::BadByte,
        });
    }
    let words = words_of(alloc, line)?;
    words_state(alloc, words.as_slice())
}

/// What a line of these words says.
fn words_state(alloc: Global, words: &[&[u8]]) -> Result<Statement, NoMemory>
    ensures { IfOk result (λ s. s ≡ words_state (map (λ word. word.now) words.now)) }
{
    if is_skipped(words) {
        return Ok(Statement::Nothing);
    }
    led_by(alloc, words, word_at(words, 0))
}

/// What a line says that is not skipped, by its leading word.
fn led_by(alloc: Global, words: &[&[u8]], word: &[u8]) -> Result<Statement, NoMemory>
    ensures { IfOk result (λ s. s ≡ led_by (map (λ word. word.now) words.now) word.now) }
{
    if is_decimal(word) {
        client_says(alloc, words)
    } else if is_word(word, "client") {
        Ok(client_line(words))
    } else if is_word(word, "quota") {
        Ok(quota_line(words))
    } else if is_word(word, "audit") {
        Ok(audit_line(words))
    } else {
        fault_line(alloc, words, word)
    }
}
