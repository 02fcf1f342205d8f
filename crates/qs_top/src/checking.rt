//! The form `check`: a history is read and judged.
ghost use Rattle.std.specs.Prelude.{◌≡◌, ◌≢◌, ℕ, Err, IfOk, IfErr};
ghost use Rattle.qs_base.specs.Causes.{Rose};
ghost use Rattle.qs_io.specs.Streams.{TakesAtMost, GivesPart};
ghost use Rattle.std.specs.Io.KnownBytes.{Appends};
ghost use Rattle.qs_text_history.specs.Journal.{IsFault};
ghost use Rattle.qs_top.specs.Texts.{ReadWhole};
ghost use Rattle.qs_top.specs.Verdict.{IsLawfulText, IsUnlawfulText, IsVerdict, IsRefusal, IsOfCheck};

use qs_base::NoMemory;
use qs_io::{ReadFault, Sink, Source, give_all, read_text};
use qs_text::{Status, lawful_text};
use qs_tools::{HISTORY_LIMIT, JournalFailed, check, read_journal};
use std::alloc::Global;

/// Reads a history from the source and judges it: where it is lawful, `lawful E` and a line feed go
/// to the sink, E the number of its entries, and else nothing.
///
/// At most 67,108,865 bytes are taken of the source. `ReadFault` and `WriteFault` come only where
/// the count of faults of the source or the sink rose in this call.
pub fn check_source<S: Source, K: Sink>(alloc: Global, source: &mut S, sink: &mut K) -> Status
    // Each status has its cause.
    ensures unlawful { (line clause : ℕ) → result ≡ Status.Unlawful line clause
        → ReadWhole 67108864 (S.left source.old) (S.left source.new) (λ text. IsUnlawfulText text line clause) }
    ensures journal { (line : ℕ) → result ≡ Status.Journal line
        → ReadWhole 67108864 (S.left source.old) (S.left source.new) (λ text. IsFault text line) }
    ensures read_fault { result ≡ Status.ReadFault → Rose (S.faults source.old) (S.faults source.new) }
    ensures write_fault { result ≡ Status.WriteFault → Rose (K.faults sink.old) (K.faults sink.new) }
    ensures built { IsOfCheck result }

    // The verdict was given whole, at a write fault a part of it, and else nothing.
    ensures finished { result ≡ Status.Finished
        → ReadWhole 67108864 (S.left source.old) (S.left source.new) (λ text. IsVerdict text (Appends (K.given sink.old) (K.given sink.new))) }
    ensures cut_off { result ≡ Status.WriteFault
        → ReadWhole 67108864 (S.left source.old) (S.left source.new) (λ text. IsVerdict text (GivesPart (K.given sink.old) (K.given sink.new))) }
    ensures silent { result ≢ Status.Finished → result ≢ Status.WriteFault → K.given sink.new ≡ K.given sink.old }

    // What was taken of the source.
    ensures bound { TakesAtMost 67108865 (S.left source.old) (S.left source.new) }
{
    let text = match read_text(alloc, source, HISTORY_LIMIT) {
        Ok(text) => text,
        Err(ReadFault::Failed) => return Status::ReadFault,
        Err(ReadFault::NoMemory) => return Status::NoMemory,
    };
    let entries = match judge(alloc, text.as_slice()) {
        Ok(entries) => entries,
        Err(status) => return status,
    };
    let Ok(verdict) = lawful_text(alloc, entries) else {
        return Status::NoMemory;
    };
    match give_all(sink, verdict.as_slice()) {
        Ok(()) => Status::Finished,
        Err(_) => Status::WriteFault,
    }
}

/// How many entries a lawful history has; else why the text is none.
fn judge(alloc: Global, text: &[u8]) -> Result<usize, Status>
    ensures lawful { IfOk result (λ count. IsLawfulText text.now count) }
    ensures unlawful { (line clause : ℕ) → result ≡ Err (Status.Unlawful line clause) → IsUnlawfulText text.now line clause }
    ensures journal { (line : ℕ) → result ≡ Err (Status.Journal line) → IsFault text.now line }
    ensures built { IfErr result (λ status. IsRefusal status) }
{
    let journal = match read_journal(alloc, text) {
        Ok(journal) => journal,
        Err(JournalFailed::Fault { line }) => return Err(Status::Journal { line }),
        Err(JournalFailed::NoMemory) => return Err(Status::NoMemory),
    };
    match check(alloc, &journal) {
        Ok(None) => Ok(journal.entries.len()),
        Ok(Some((line, clause))) => Err(Status::Unlawful { line, clause }),
        Err(NoMemory) => Err(Status::NoMemory),
    }
}
