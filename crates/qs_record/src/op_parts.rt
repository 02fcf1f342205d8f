//! The tags, texts and numbers of operations written at the end of a list of bytes.
ghost use Rattle.std.specs.Prelude.{◌≤◌, ◌∷◌, [], length, All, OnOk, OnErr};
ghost use Rattle.qs_base.specs.Printable.{IsPrintable};
ghost use Rattle.qs_codec.specs.Grammar.{Byte, Word, Text};
ghost use Rattle.qs_record.specs.Grammar.{SpellsAll};
ghost use Rattle.qs_record.specs.Writing.{Adds, Grows};

use qs_base::{Bytes, ClientNo, List, NoMemory};
use qs_codec::{put_text, put_u8, put_u32};

// Adds a tag alone.
pub(crate) fn add_tag(out: &mut List<u8>, tag: u8) -> Result<(), NoMemory>
    ensures ok { OnOk result (Adds (SpellsAll (Byte tag ∷ [])) out.old out.new) }
    ensures err { OnErr result (Grows out.old out.new) }
{
    put_u8(out, tag)
}

// Adds a tag and a text, or a front of them where memory is refused.
pub(crate) fn add_single(out: &mut List<u8>, tag: u8, text: &Bytes) -> Result<(), NoMemory>
    requires each { All IsPrintable text.now }
    requires fits { length text.now ≤ 4096 }
    ensures ok { OnOk result (Adds (SpellsAll (Byte tag ∷ Text text.now ∷ [])) out.old out.new) }
    ensures err { OnErr result (Grows out.old out.new) }
{
    put_u8(out, tag)?;
    put_text(out, text.as_slice())
}

// Adds a tag, a name and a text, or a front of them where memory is refused.
#[tactic(auto, using(crate::proofs::Writers::three_added))]
pub(crate) fn add_pair(
    out: &mut List<u8>,
    tag: u8,
    name: &Bytes,
    text: &Bytes,
) -> Result<(), NoMemory>
    requires name_each { All IsPrintable name.now }
    requires name_fits { length name.now ≤ 4096 }
    requires text_each { All IsPrintable text.now }
    requires text_fits { length text.now ≤ 4096 }
    ensures ok { OnOk result (Adds (SpellsAll (Byte tag ∷ Text name.now ∷ Text text.now ∷ [])) out.old out.new) }
    ensures err { OnErr result (Grows out.old out.new) }
{
    put_u8(out, tag)?;
    put_text(out, name.as_slice())?;
    put_text(out, text.as_slice())
}

// Adds a tag, a name and a number, or a front of them where memory is refused.
#[tactic(auto, using(crate::proofs::Writers::three_added))]
pub(crate) fn add_timer(
    out: &mut List<u8>,
    tag: u8,
    name: &Bytes,
    ticks: u32,
) -> Result<(), NoMemory>
    requires each { All IsPrintable name.now }
    requires fits { length name.now ≤ 4096 }
    ensures ok { OnOk result (Adds (SpellsAll (Byte tag ∷ Text name.now ∷ Word ticks ∷ [])) out.old out.new) }
    ensures err { OnErr result (Grows out.old out.new) }
{
    put_u8(out, tag)?;
    put_text(out, name.as_slice())?;
    put_u32(out, ticks)
}

// Adds a tag and a client, or a front of them where memory is refused.
pub(crate) fn add_lend(out: &mut List<u8>, tag: u8, client: ClientNo) -> Result<(), NoMemory>
    ensures ok { OnOk result (Adds (SpellsAll (Byte tag ∷ Byte client.0 ∷ [])) out.old out.new) }
    ensures err { OnErr result (Grows out.old out.new) }
{
    put_u8(out, tag)?;
    put_u8(out, client.0)
}

// Adds a tag, a code and a text, or a front of them where memory is refused.
#[tactic(auto, using(crate::proofs::Writers::three_added))]
pub(crate) fn add_extra(
    out: &mut List<u8>,
    tag: u8,
    code: u32,
    text: &Bytes,
) -> Result<(), NoMemory>
    requires each { All IsPrintable text.now }
    requires fits { length text.now ≤ 4096 }
    ensures ok { OnOk result (Adds (SpellsAll (Byte tag ∷ Word code ∷ Text text.now ∷ [])) out.old out.new) }
    ensures err { OnErr result (Grows out.old out.new) }
{
    put_u8(out, tag)?;
    put_u32(out, code)?;
    put_text(out, text.as_slice())
}
