//! What the words ask for.
ghost use Rattle.std.specs.Prelude.{◌≡◌};
ghost use Rattle.qs_text_script.specs.Words.{form_of};
ghost use Rattle.qs_top.specs.Asking.{asked_in, asked_by, serial_run, shown_with};

use qs_gen::NODE_COUNT;
use qs_text::{Form, Shown, read_words};

/// What the words ask for, as far as it is carried out at this stage.
#[derive(Clone, Copy)]
pub enum Asked {
    /// A run of one to eight nodes in one thread; or a load, of which its line is shown.
    Serial { nodes: u8, seed: u64, shown: Shown },
    /// A history is to be judged.
    Check,
}

/// What words ask for; `None` where they are of no form, or of one that is not carried out yet.
pub fn asked_by(words: &[String]) -> Option<Asked>
    ensures { result ≡ asked_by (form_of words.now) }
{
    match read_words(words) {
        Ok(form) => asked_in(form),
        Err(_) => None,
    }
}

/// What a form asks for: of runs those with a seed. A load is a run of the nodes that its script is for, in an order that is drawn from
/// the seed of the script.
fn asked_in(form: Form) -> Option<Asked>
    ensures { result ≡ asked_in form }
{
    match form {
        Form::Run {
            nodes,
            serial: Some(seed),
            journal,
        } => serial_run(nodes, seed, shown_with(journal)),
        Form::Run { .. } => None,
        Form::Check => Some(Asked::Check),
        Form::Load { seed } => Some(Asked::Serial {
            nodes: NODE_COUNT,
            seed,
            shown: Shown::Load { seed },
        }),
    }
}

/// The output, with the history or without.
fn shown_with(journal: bool) -> Shown
    ensures { result ≡ shown_with journal }
{
    if journal {
        Shown::Journal
    } else {
        Shown::Output
    }
}

fn serial_run(nodes: u8, seed: u64, shown: Shown) -> Option<Asked>
    ensures { result ≡ serial_run nodes seed shown }
{
    match nodes {
        1..=8 => Some(Asked::Serial { nodes, seed, shown }),
        _ => None,
    }
}
