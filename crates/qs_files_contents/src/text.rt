//! Texts in pieces.
ghost use Rattle.std.specs.Prelude.{◌≡◌, ◌++◌, [], ◌∷◌, length as count, unwrap_or, IfOk, IfSome, OnOk};
ghost use Rattle.std.specs.List.{concat, fold};
ghost use Rattle.std.specs.Option.{option_copied};
ghost use Rattle.qs_files_contents.specs.Texts.{both, linked, joined, flat, text_bytes, add_piece, IsSum};

use qs_base::{Bytes, NoMemory};
use std::alloc::Global;
use std::collections::LinkedList;
use std::marker::Model;

/// A text has fewer pieces than this.
const PIECES: usize = 1 << 63;

/// A text in pieces. More is added at its end without a copy of what stands there.
#[derive(Drop)]
pub struct Text {
    pieces: LinkedList<Bytes>,
    /// How many bytes all pieces have; `None` where they are more than a `usize` can tell.
    bytes: Option<usize>,
}

impl Model for Text {
    ghost use Rattle.std.specs.Prelude.{◌≡◌, IfSome, length as count};
    ghost use Rattle.std.specs.List.{concat};
    ghost use Rattle.qs_files_contents.specs.Texts.{Pieces};

    ghost Value = { Pieces };

    ghost view = { λ t. t.pieces };

    ghost invariant = { λ t. IfSome t.bytes (λ n. n ≡ count (concat t.pieces)) };
}

impl Text {
    /// A text of one piece.
    pub fn of(alloc: Global, piece: Bytes) -> Result<Text, NoMemory>
        ensures { IfOk result (λ text. text ≡ piece ∷ []) }
    {
        let bytes = Some(piece.len());
        let mut pieces = LinkedList::new(alloc);
        pieces.push_back(piece)?;
        Ok(Text { pieces, bytes })
    }

    /// How many bytes it has; `None` only where they are more than a `usize` can tell.
    pub fn len(&self) -> Option<usize>
        ensures { IfSome result (λ n. n ≡ count (concat self.now)) }
    {
        self.bytes
    }

    /// Adds another text at the end, which is left out where there would be too many pieces. It
    /// takes no memory.
    pub fn append(&mut self, more: Text)
        ensures { self.new ≡ both self.old more }
    {
        let Text { mut pieces, bytes } = more;
        if self.pieces.len() + pieces.len() < PIECES {
            let Ok(()) = self.pieces.append(&mut pieces) else {
                unreachable!()
            };
            self.bytes = sum(self.bytes, bytes);
        }
    }

    /// Adds the text at the end of these bytes.
    fn add_to(&self, out: &mut Bytes) -> Result<(), NoMemory>
        ensures { OnOk result (out.new ≡ out.old ++ concat self.now) }
    {
        self.add_pieces(out)
    }

    /// Adds the pieces at the end of these bytes, one after the other.
    fn add_pieces(&self, out: &mut Bytes) -> Result<(), NoMemory>
        ensures { OnOk result (out.new ≡ fold add_piece out.old self.now) }
    {
        for piece in &self.pieces {
            out.append(piece.as_slice())?;
        }
        Ok(())
    }
}

/// The sum of two counts; `None` only where one is not told, or the sum does not fit.
fn sum(first: Option<usize>, second: Option<usize>) -> Option<usize>
    ensures { IfSome result (IsSum first second) }
{
    first?.checked_add(second?)
}

/// Puts another text behind the one that is there, if any. It takes no memory.
pub fn join(text: &mut Option<Text>, more: Option<Text>)
    ensures { text.new ≡ linked text.old more }
{
    let Some(more) = more else {
        return;
    };
    match text {
        Some(text) => text.append(more),
        None => *text = Some(more),
    }
}

/// The second text behind the first, as bytes; `None` where neither is there.
pub fn written(
    alloc: Global,
    first: Option<&Text>,
    second: Option<&Text>,
) -> Result<Option<Bytes>, NoMemory>
    ensures { IfOk result (λ text. text ≡ joined (flat (option_copied first.entry)) (flat (option_copied second.entry))) }
{
    match (first, second) {
        (None, None) => Ok(None),
        (Some(text), None) | (None, Some(text)) => Ok(Some(bytes_of(alloc, text)?)),
        (Some(text), Some(more)) => {
            let mut out = bytes_of(alloc, text)?;
            more.add_to(&mut out)?;
            Ok(Some(out))
        }
    }
}

/// The text as bytes.
pub fn bytes_of(alloc: Global, text: &Text) -> Result<Bytes, NoMemory>
    ensures { IfOk result (λ bytes. bytes ≡ concat text.now) }
{
    let mut out = Bytes::new(alloc);
    text.add_to(&mut out)?;
    Ok(out)
}

/// How many bytes the second text behind the first has, where one is there; `None` only where they
/// are more than a `usize` can tell.
pub fn length(first: Option<&Text>, second: Option<&Text>) -> Option<usize>
    ensures { IfSome result (λ n. n ≡ text_bytes (joined (flat (option_copied first.entry)) (flat (option_copied second.entry)))) }
{
    match (first, second) {
        (None, None) => Some(0),
        (Some(text), None) | (None, Some(text)) => text.len(),
        (Some(text), Some(more)) => sum(text.len(), more.len()),
    }
}
