//! How far a client is with the lines of its script.
ghost use Rattle.std.specs.Prelude.{◌≡◌, ◌≢◌, ◌+◌, ◌^◌, ◌<◌, IfOk, OnErr, IsTrue, None};
ghost use Rattle.std.specs.Option.{option_copied};
ghost use Rattle.qs_client.specs.Progress.{begun, line_at, number_at, to_send, sent, is_number, awaits, answered, heard};

use qs_base::{Copied, List, NoMemory};
use qs_book_journal::{LineAnswer, ScriptLine};

/// A client's lines, the place of the line that it stands at, from 0, and whether that line is out:
/// sent and not answered.
#[derive(Drop)]
pub struct Progress {
    lines: List<ScriptLine>,
    place: usize,
    is_out: bool,
}

impl Progress {
    /// At the first of these lines.
    pub(crate) fn new(lines: List<ScriptLine>) -> Progress
        ensures { result ≡ begun lines }
    {
        Progress {
            lines,
            place: 0,
            is_out: false,
        }
    }

    fn line(&self) -> Option<&ScriptLine>
        ensures { option_copied result ≡ line_at self.now }
    {
        self.lines.get(self.place)
    }

    /// The number of the line that it stands at, from 1; `None` exactly at its end.
    pub(crate) fn number(&self) -> Option<u32>
        ensures { result ≡ number_at self.now }
    {
        self.line().map(|line| line.line)
    }

    /// What it sends next: `None` where a line is out, and at its end. `NoMemory` comes where memory
    /// was refused, and only with a line to send.
    pub(crate) fn to_send(&self) -> Result<Option<ScriptLine>, NoMemory>
        ensures line { IfOk result (λ line. line ≡ to_send self.now) }
        ensures memory { OnErr result (to_send self.now ≢ None) }
    {
        if self.is_out {
            return Ok(None);
        }
        match self.line() {
            Some(line) => Ok(Some(line.copy()?)),
            None => Ok(None),
        }
    }

    /// The line that it stands at was sent.
    pub(crate) fn send(&mut self)
        ensures { self.new ≡ sent self.old }
    {
        self.is_out = true;
    }

    /// An answer came, or none. An answer to a line that is not out changes nothing.
    pub(crate) fn hear(&mut self, answer: Option<LineAnswer>)
        ensures { self.new ≡ heard answer self.old }
    {
        if let Some(answer) = answer {
            self.take_in(&answer);
        }
    }

    fn take_in(&mut self, answer: &LineAnswer)
        ensures { self.new ≡ answered answer.now self.old }
    {
        if self.awaits(answer.line) {
            self.place += 1;
            self.is_out = false;
        }
    }

    // Whether the line of this number is out.
    #[tactic(auto, using(crate::proofs::Places::none_behind))]
    fn awaits(&self, number: u32) -> bool
        ensures value { result ≡ awaits number self.now }
        ensures next { IsTrue result → self.now.place + 1 < 2 ^ 64 }
    {
        self.place < self.lines.len() && self.is_out && is_number(number, self.number())
    }
}

fn is_number(number: u32, other: Option<u32>) -> bool
    ensures { result ≡ is_number number other }
{
    match other {
        None => false,
        Some(other) => number == other,
    }
}
