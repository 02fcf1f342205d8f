//! Reads the words after the program's name.
ghost use Rattle.std.specs.Prelude.{◌≡◌, string_bytes};
ghost use Rattle.std.specs.Option.{ok_or};
ghost use Rattle.qs_text_script.specs.Words.{with_nodes, with_serial, with_journal, is_seed_word, with_option, with_word, options_of, no_options, run_with, run_form, check_form, load_with, load_form, form_with, form_of};

use crate::form::{Form, WordsFault};
use qs_book_script::{is_word, number_of};

/// The most nodes of a run.
const NODES: u64 = 8;

/// How many bytes `--serial=` has.
const SEED_AT: usize = 9;

/// What the words after `run` said so far.
#[derive(Clone, Copy)]
pub struct Options {
    /// How many nodes the run has.
    pub nodes: Option<u8>,
    /// The seed of its order.
    pub serial: Option<u64>,
    /// Whether its history is given too.
    pub journal: bool,
    /// Whether the next word is the seed.
    pub seed_due: bool,
}

/// The form that the words are of: `run N [--serial SEED] [--journal]`, in any order behind `run`
/// and with `--serial=SEED` too, `check`, or `load SEED`. N is from 1 to 8, SEED a number of 64 bits;
/// no number has leading zeros, and nothing is said twice. It takes no memory.
pub fn read_words(words: &[String]) -> Result<Form, WordsFault>
    ensures { result ≡ ok_or (form_of words.now) WordsFault.Usage }
{
    form_of(words).ok_or(WordsFault::Usage)
}

/// The form that the words are of, if they are of one.
fn form_of(words: &[String]) -> Option<Form>
    ensures { result ≡ form_of words.now }
{
    match words {
        [first, rest @ ..] => form_with(first.as_str(), rest),
        [] => None,
    }
}

/// The form that begins with that word.
fn form_with(first: &str, words: &[String]) -> Option<Form>
    ensures { result ≡ form_with first.now words.now }
{
    if first == "run" {
        run_form(options_of(words))
    } else if first == "check" {
        check_form(words)
    } else if first == "load" {
        load_form(words)
    } else {
        None
    }
}

/// `check` has no further words.
fn check_form(words: &[String]) -> Option<Form>
    ensures { result ≡ check_form words.now }
{
    match words {
        [] => Some(Form::Check),
        [_, ..] => None,
    }
}

/// `load` has its seed, and no further words.
fn load_form(words: &[String]) -> Option<Form>
    ensures { result ≡ load_form words.now }
{
    match words {
        [word] => load_with(number_of(word.as_str().as_bytes())),
        _ => None,
    }
}

fn load_with(seed: Option<u64>) -> Option<Form>
    ensures { result ≡ load_with seed }
{
    Some(Form::Load { seed: seed? })
}

/// A run needs its number of nodes.
fn run_form(options: Option<Options>) -> Option<Form>
    ensures { result ≡ run_form options }
{
    run_with(options?)
}

fn run_with(options: Options) -> Option<Form>
    ensures { result ≡ run_with options options.nodes }
{
    let nodes = options.nodes?;
    if options.seed_due {
        return None;
    }
    Some(Form::Run {
        nodes,
        serial: options.serial,
        journal: options.journal,
    })
}

/// What the words say, if each may stand there.
fn options_of(words: &[String]) -> Option<Options>
    ensures { result ≡ options_of no_options words.now }
{
    let mut options = Options {
        nodes: None,
        serial: None,
        journal: false,
        seed_due: false,
    };
    let mut rest = words;
    while let [word, more @ ..] = rest {
        options = options.with_word(word.as_str().as_bytes())?;
        rest = more;
    }
    Some(options)
}

impl Options {
    /// With one more word, if it may stand there.
    fn with_word(self, word: &[u8]) -> Option<Options>
        ensures { result ≡ with_word self word.now }
    {
        if self.seed_due {
            self.with_serial(number_of(word))
        } else {
            self.with_option(word)
        }
    }

    fn with_option(self, word: &[u8]) -> Option<Options>
        ensures { result ≡ with_option self word.now }
    {
        if is_word(word, "--journal") {
            return self.with_journal();
        }
        if is_word(word, "--serial") {
            return Some(Options {
                seed_due: true,
                ..self
            });
        }
        if is_seed_word(word) {
            let (_, seed) = word.split_at(SEED_AT);
            return self.with_serial(number_of(seed));
        }
        self.with_nodes(number_of(word))
    }

    fn with_journal(self) -> Option<Options>
        ensures { result ≡ with_journal self }
    {
        if self.journal {
            None
        } else {
            Some(Options {
                journal: true,
                ..self
            })
        }
    }

    fn with_serial(self, seed: Option<u64>) -> Option<Options>
        ensures { result ≡ with_serial self seed }
    {
        let seed = seed?;
        if self.serial.is_some() {
            return None;
        }
        Some(Options {
            serial: Some(seed),
            seed_due: false,
            ..self
        })
    }

    fn with_nodes(self, nodes: Option<u64>) -> Option<Options>
        ensures { result ≡ with_nodes self nodes }
    {
        let nodes = nodes?;
        if self.nodes.is_some() || nodes == 0 || NODES < nodes {
            return None;
        }
        Some(Options {
            nodes: Some(nodes as u8),
            ..self
        })
    }
}

/// Whether the word is `--serial=` and more, or nothing more.
fn is_seed_word(word: &[u8]) -> bool
    ensures { result ≡ is_seed_word word.now }
{
    if word.len() < SEED_AT {
        return false;
    }
    let (front, _) = word.split_at(SEED_AT);
    is_word(front, "--serial=")
}
