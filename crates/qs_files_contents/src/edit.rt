//! What a transaction is about to make of a text.
ghost use Rattle.std.specs.Prelude.{◌≡◌, ◌∷◌, [], IfOk};
ghost use Rattle.qs_files_contents.specs.Edits.{no_edit, is_no_edit, edited, changed};

use crate::text::{Text, join};

/// What a transaction is about to make of a text: what stands there may go, and more may be added.
#[derive(Drop)]
pub struct Edit {
    /// Whether what stands there goes.
    pub replaces: bool,
    /// What is added, where something is.
    pub text: Option<Text>,
}

/// One change to a text, with the memory that it takes.
#[derive(Drop)]
pub enum Change {
    /// There is this text from now on.
    Put { text: Text },
    /// The text is added at the end, or stands there alone.
    Append { text: Text },
    /// There is nothing any more.
    Del,
}

impl Edit {
    /// Nothing. It takes no memory.
    pub fn none() -> Edit
        ensures { result ≡ no_edit }
    {
        Edit {
            replaces: false,
            text: None,
        }
    }

    /// Whether it changes nothing.
    pub fn is_none(&self) -> bool
        ensures { result ≡ is_no_edit self.now }
    {
        !self.replaces && self.text.is_none()
    }

    /// One more change. It takes no memory.
    pub fn change(&mut self, change: Change)
        ensures { self.new ≡ changed self.old change }
    {
        match change {
            Change::Put { text } => {
                self.replaces = true;
                self.text = Some(text);
            }
            Change::Append { text } => join(&mut self.text, Some(text)),
            Change::Del => {
                self.replaces = true;
                self.text = None;
            }
        }
    }

    /// Makes of a text what it is to become. It takes no memory.
    pub fn apply(self, text: &mut Option<Text>)
        ensures { text.new ≡ edited self text.old }
    {
        let Edit {
            replaces,
            text: more,
        } = self;
        if replaces {
            *text = None;
        }
        join(text, more);
    }
}
