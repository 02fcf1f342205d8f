//! A client with its ends of the two lanes to its node.
ghost use Rattle.std.specs.Prelude.{◌≡◌, ◌≢◌, ◌↔◌, ◌||◌, ◌+◌, ◌<◌, ◌^◌, [], ◌∷◌, IfOk, OnOk, OnErr, Ok, None, Some, false, is_some};
ghost use Rattle.std.specs.Borrow.{sem};
ghost use Rattle.rtrb.specs.Ring.{received, known_free, known_items};
ghost use Rattle.qs_link.specs.Lane.{Fed};
ghost use Rattle.qs_client.specs.Lending.{LendsCommands, LendsAnswers};
ghost use Rattle.qs_client.specs.Progress.{begun, number_at, to_send, sent, heard};
ghost use Rattle.qs_client.specs.Turns.{HearsCarried, HearsThenSends, SendsIf, Turns, first_answer};

use crate::progress::Progress;
use qs_base::{ClientNo, List, NoMemory};
use qs_book_journal::{LineAnswer, ScriptLine};
use qs_link::{Draw, Feed};

/// A client's ends of its lanes: its commands go to its node, the answers come from there.
#[derive(Drop)]
pub struct ClientEnds {
    pub commands: Feed<ScriptLine>,
    pub answers: Draw<LineAnswer>,
}

/// A client: it sends the commands of its lines in order, each once the one before it was answered.
#[derive(Drop)]
pub struct ClientCell {
    client: ClientNo,
    progress: Progress,
    commands: Feed<ScriptLine>,
    answers: Draw<LineAnswer>,
    acts: u64,
}

impl ClientCell {
    /// The client of this number at the first of its lines, with its ends of its lanes.
    pub fn new(client: ClientNo, lines: List<ScriptLine>, ends: ClientEnds) -> ClientCell
        ensures { result ≡ record { client = client; progress = begun lines; commands = ends.commands; answers = ends.answers; acts = 0 } }
    {
        ClientCell {
            client,
            progress: Progress::new(lines),
            commands: ends.commands,
            answers: ends.answers,
            acts: 0,
        }
    }

    /// Its number.
    pub fn client(&self) -> ClientNo
        ensures { result ≡ self.now.client }
    {
        self.client
    }

    /// How many calls of `act` were made and not refused.
    pub fn acts(&self) -> u64
        ensures { result ≡ self.now.acts }
    {
        self.acts
    }

    /// The number of the line that it stands at, from 1; `None` exactly at its end.
    pub fn at(&self) -> Option<u32>
        ensures { result ≡ number_at self.now.progress }
    {
        self.progress.number()
    }

    /// A turn: it sends the command that it stands at, where none is out, or else takes an answer, and
    /// pushes what stands in its outbox into the ring. True where it sent or took; false exactly where
    /// a command was out, or all were answered, and there was no answer. `NoMemory` comes where memory
    /// was refused for a command to send; then all is as it was.
    pub fn act(&mut self) -> Result<bool, NoMemory>
        requires { self.old.acts + 1 < 2 ^ 64 }

        // What the turn did, and that it is counted.
        ensures turn { IfOk result (λ did. Turns (to_send self.old.progress) did self.old self.new) }
        ensures acts { OnOk result (self.new.acts ≡ self.old.acts + 1) }
        ensures client { self.new.client ≡ self.old.client }

        // False exactly where it had nothing to send and was given no answer; then it knows of none in the ring.
        ensures idle { (result ≡ Ok false) ↔ (to_send self.old.progress ≡ None) × (self.old.answers.inbox ≡ []) × (received self.new.answers.ring ≡ received self.old.answers.ring) }
        ensures looked { result ≡ Ok false → known_items self.new.answers.ring ≡ [] }

        // Afterwards its outbox is empty, or it knows of no free place in the ring.
        ensures pushed { OnOk result (self.new.commands.outbox ≢ [] → known_free self.new.commands.ring ≡ 0) }

        // Want of memory.
        ensures memory { OnErr result (to_send self.old.progress ≢ None) }
        ensures err { OnErr result (self.new ≡ self.old) }
    {
        let did = self.turn()?;
        self.commands.push_all();
        self.acts += 1;
        Ok(did)
    }

    // A turn of which nothing is pushed into the ring.
    fn turn(&mut self) -> Result<bool, NoMemory>
        ensures turn { IfOk result (λ did. Turns (to_send self.old.progress) did self.old self.new) }
        ensures idle { (result ≡ Ok false) ↔ (to_send self.old.progress ≡ None) × (self.old.answers.inbox ≡ []) × (received self.new.answers.ring ≡ received self.old.answers.ring) }
        ensures looked { result ≡ Ok false → known_items self.new.answers.ring ≡ [] }
        ensures acts { self.new.acts ≡ self.old.acts }
        ensures client { self.new.client ≡ self.old.client }
        ensures memory { OnErr result (to_send self.old.progress ≢ None) }
        ensures err { OnErr result (self.new ≡ self.old) }
    {
        match self.progress.to_send()? {
            Some(line) => {
                send(&mut self.progress, &mut self.commands, line)?;
                Ok(true)
            }
            None => {
                let answer = self.answers.take();
                Ok(hear(&mut self.progress, answer))
            }
        }
    }

    /// A visit in a round, of what was carried alone: it takes the answer that was carried first, if one was, and then
    /// sends the command that it stands at, if none is out. It takes nothing from a ring and pushes nothing into
    /// one. True where it took or sent; false exactly where no answer was carried and it had nothing to send.
    /// `NoMemory` comes where memory was refused for a command to send; then the answer is taken, if one was
    /// carried, and nothing was sent. It is no call of `act`.
    pub fn visit(&mut self) -> Result<bool, NoMemory>
        // What the visit did.
        ensures turn { IfOk result (λ did. HearsThenSends did self.old self.new) }
        ensures acts { self.new.acts ≡ self.old.acts }
        ensures client { self.new.client ≡ self.old.client }

        // False exactly where it had nothing to send and no answer stood in the inbox.
        ensures idle { (result ≡ Ok false) ↔ (to_send self.old.progress ≡ None) × (self.old.answers.inbox ≡ []) }

        // The rings are left alone.
        ensures ring { self.new.commands.ring ≡ self.old.commands.ring }
        ensures answers_ring { self.new.answers.ring ≡ self.old.answers.ring }

        // Want of memory.
        ensures memory { OnErr result (to_send self.new.progress ≢ None) }
        ensures err { OnErr result (HearsCarried self.old self.new) }
    {
        let has_heard = self.hear_carried();
        let has_sent = self.send_next()?;
        Ok(either(has_heard, has_sent))
    }

    // Takes the answer that was carried first, and says whether there was one.
    fn hear_carried(&mut self) -> bool
        ensures hears { HearsCarried self.old self.new }
        ensures some { result ≡ is_some (first_answer self.old.answers.inbox) }
        ensures acts { self.new.acts ≡ self.old.acts }
        ensures client { self.new.client ≡ self.old.client }
    {
        let answer = self.answers.take_carried();
        hear(&mut self.progress, answer)
    }

    // Sends the line that it stands at, if none is out, and says whether it did.
    fn send_next(&mut self) -> Result<bool, NoMemory>
        ensures sends { OnOk result (SendsIf (to_send self.old.progress) self.old self.new) }
        ensures some { IfOk result (λ did. did ≡ is_some (to_send self.old.progress)) }
        ensures acts { self.new.acts ≡ self.old.acts }
        ensures client { self.new.client ≡ self.old.client }
        ensures ring { self.new.commands.ring ≡ self.old.commands.ring }
        ensures answers { self.new.answers ≡ self.old.answers }
        ensures memory { OnErr result (to_send self.old.progress ≢ None) }
        ensures err { OnErr result (self.new ≡ self.old) }
    {
        match self.progress.to_send()? {
            Some(line) => {
                send(&mut self.progress, &mut self.commands, line)?;
                Ok(true)
            }
            None => Ok(false),
        }
    }

    /// The end of the lane of its commands.
    pub fn commands(&mut self) -> &mut Feed<ScriptLine>
        ensures* writes_back { sem 𝓛 (LendsCommands self.entry result) }
        ensures value { result.now ≡ self.old.commands }
    {
        &mut self.commands
    }

    /// The end of the lane of its answers.
    pub fn answers(&mut self) -> &mut Draw<LineAnswer>
        ensures* writes_back { sem 𝓛 (LendsAnswers self.entry result) }
        ensures value { result.now ≡ self.old.answers }
    {
        &mut self.answers
    }
}

// Puts a line to the lane.
fn send(
    progress: &mut Progress,
    commands: &mut Feed<ScriptLine>,
    line: ScriptLine,
) -> Result<(), NoMemory>
    ensures progress { OnOk result (progress.new ≡ sent progress.old) }
    ensures commands { OnOk result (Fed (line ∷ []) commands.old commands.new) }
    ensures ring { commands.new.ring ≡ commands.old.ring }
    ensures err { OnErr result (progress.new ≡ progress.old) }
    ensures err_commands { OnErr result (commands.new ≡ commands.old) }
{
    if commands.put(line).is_err() {
        return Err(NoMemory);
    }
    progress.send();
    Ok(())
}

// Takes an answer in, and says whether there was one.
fn hear(progress: &mut Progress, answer: Option<LineAnswer>) -> bool
    ensures progress { progress.new ≡ heard answer progress.old }
    ensures some { result ≡ is_some answer }
{
    let is_some = answer.is_some();
    progress.hear(answer);
    is_some
}

fn either(first: bool, second: bool) -> bool
    ensures { result ≡ (first || second) }
{
    first || second
}
