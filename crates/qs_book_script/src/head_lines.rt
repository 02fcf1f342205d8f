//! Lines about clients, quotas, audit notes and faults.
ghost use Rattle.std.specs.Prelude.{◌≡◌, ◌&&◌, IfOk, map};
ghost use Rattle.qs_book_script.specs.Statements.{client_line, quota_line, audit_line, crash_line, stop_line, point_line, drop_line, repeat_line, hold_line, fault_line, link_line, are_numbers_to, is_number_at, is_label_at, is_kind, word_at};
ghost use Rattle.qs_book_script.specs.declared.statement.Statement.TheVariants.{Unreadable};
ghost use Rattle.qs_book_script.specs.declared.status.ScriptFault.TheVariants as faults;

use crate::line::is_word;
use crate::script::{Planned, Quota, Seat};
use crate::spelling::{
    are_three_numbers, are_two_numbers, client_at, is_kind, is_label_at, is_number_at, kind_of,
    node_at, number_at, word_at, word_count,
};
use crate::statement::Statement;
use crate::status::ScriptFault;
use qs_base::{Bytes, NoMemory};
use qs_book_journal::Point;
use std::alloc::Global;

/// A line with too few or too many words.
pub fn bad_count() -> Statement
    ensures { result ≡ Unreadable faults.BadCount }
{
    Statement::Unreadable {
        fault: ScriptFault::BadCount,
    }
}

/// A line with a word that may not stand there.
pub fn bad_word() -> Statement
    ensures { result ≡ Unreadable faults.BadWord }
{
    Statement::Unreadable {
        fault: ScriptFault::BadWord,
    }
}

/// `client K N`.
pub fn client_line(words: &[&[u8]]) -> Statement
    ensures { result ≡ client_line (map (λ word. word.now) words.now) }
{
    if word_count(words) != 3 {
        return bad_count();
    }
    if !are_two_numbers(words) {
        return bad_word();
    }
    let seat = Seat {
        client: client_at(words, 1),
        node: node_at(words, 2),
    };
    Statement::Seated { seat }
}

/// `quota N BYTES`.
pub fn quota_line(words: &[&[u8]]) -> Statement
    ensures { result ≡ quota_line (map (λ word. word.now) words.now) }
{
    if word_count(words) != 3 {
        return bad_count();
    }
    if !are_two_numbers(words) {
        return bad_word();
    }
    let quota = Quota {
        node: node_at(words, 1),
        bytes: number_at(words, 2),
    };
    Statement::Limited { quota }
}

/// `audit N`.
pub fn audit_line(words: &[&[u8]]) -> Statement
    ensures { result ≡ audit_line (map (λ word. word.now) words.now) }
{
    if word_count(words) != 2 {
        return bad_count();
    }
    if !is_number_at(words, 1) {
        return bad_word();
    }
    Statement::Audited {
        node: node_at(words, 1),
    }
}

/// `crash N E`.
fn crash_line(words: &[&[u8]]) -> Statement
    ensures { result ≡ crash_line (map (λ word. word.now) words.now) }
{
    if word_count(words) != 3 {
        return bad_count();
    }
    if !are_two_numbers(words) {
        return bad_word();
    }
    let fault = Planned::Crash {
        node: node_at(words, 1),
        event: number_at(words, 2),
    };
    Statement::Fault { fault }
}

/// `stop N C`.
fn stop_line(words: &[&[u8]]) -> Statement
    ensures { result ≡ stop_line (map (λ word. word.now) words.now) }
{
    if word_count(words) != 3 {
        return bad_count();
    }
    if !are_two_numbers(words) {
        return bad_word();
    }
    let fault = Planned::Stop {
        node: node_at(words, 1),
        call: number_at(words, 2),
    };
    Statement::Fault { fault }
}

/// `drop N M P`.
fn drop_line(words: &[&[u8]]) -> Statement
    ensures { result ≡ drop_line (map (λ word. word.now) words.now) }
{
    if word_count(words) != 4 {
        return bad_count();
    }
    if !are_three_numbers(words) {
        return bad_word();
    }
    let fault = Planned::Drop {
        from: node_at(words, 1),
        to: node_at(words, 2),
        packet: number_at(words, 3),
    };
    Statement::Fault { fault }
}

/// `repeat N M P`.
fn repeat_line(words: &[&[u8]]) -> Statement
    ensures { result ≡ repeat_line (map (λ word. word.now) words.now) }
{
    if word_count(words) != 4 {
        return bad_count();
    }
    if !are_three_numbers(words) {
        return bad_word();
    }
    let fault = Planned::Again {
        from: node_at(words, 1),
        to: node_at(words, 2),
        packet: number_at(words, 3),
    };
    Statement::Fault { fault }
}

/// `hold N M P C`.
fn hold_line(words: &[&[u8]]) -> Statement
    ensures { result ≡ hold_line (map (λ word. word.now) words.now) }
{
    if word_count(words) != 5 {
        return bad_count();
    }
    if !is_held(words) {
        return bad_word();
    }
    let fault = Planned::Hold {
        from: node_at(words, 1),
        to: node_at(words, 2),
        packet: number_at(words, 3),
        count: number_at(words, 4),
    };
    Statement::Fault { fault }
}

/// Whether numbers stand at the places 1 to 4.
fn is_held(words: &[&[u8]]) -> bool
    ensures { result ≡ (are_numbers_to (map (λ word. word.now) words.now) 3 && is_number_at (map (λ word. word.now) words.now) 4) }
{
    are_three_numbers(words) && is_number_at(words, 4)
}

/// Whether a node, a kind and a label stand at the places 1 to 3.
fn is_point(words: &[&[u8]]) -> bool
    ensures { result ≡ (is_number_at (map (λ word. word.now) words.now) 1 && (is_kind (word_at (map (λ word. word.now) words.now) 2) && is_label_at (map (λ word. word.now) words.now) 3)) }
{
    is_number_at(words, 1) && is_kind(word_at(words, 2)) && is_label_at(words, 3)
}

/// `before N KIND T`, or `after N KIND T`.
fn point_line(alloc: Global, after: bool, words: &[&[u8]]) -> Result<Statement, NoMemory>
    ensures { IfOk result (λ s. s ≡ point_line after (map (λ word. word.now) words.now)) }
{
    if word_count(words) != 4 {
        return Ok(bad_count());
    }
    if !is_point(words) {
        return Ok(bad_word());
    }
    let point = Point {
        after,
        kind: kind_of(word_at(words, 2)),
        label: Bytes::from_slice(alloc, word_at(words, 3))?,
    };
    let fault = Planned::At {
        node: node_at(words, 1),
        point,
    };
    Ok(Statement::Fault { fault })
}

/// A line about faults, by its leading word.
pub fn fault_line(alloc: Global, words: &[&[u8]], word: &[u8]) -> Result<Statement, NoMemory>
    ensures { IfOk result (λ s. s ≡ fault_line (map (λ word. word.now) words.now) word.now) }
{
    if is_word(word, "before") {
        return point_line(alloc, false, words);
    }
    if is_word(word, "after") {
        return point_line(alloc, true, words);
    }
    Ok(link_line(words, word))
}

/// A line about a crash, a disk call or a packet, by its leading word.
fn link_line(words: &[&[u8]], word: &[u8]) -> Statement
    ensures { result ≡ link_line (map (λ word. word.now) words.now) word.now }
{
    if is_word(word, "crash") {
        crash_line(words)
    } else if is_word(word, "stop") {
        stop_line(words)
    } else if is_word(word, "drop") {
        drop_line(words)
    } else if is_word(word, "repeat") {
        repeat_line(words)
    } else if is_word(word, "hold") {
        hold_line(words)
    } else {
        bad_word()
    }
}
