//! What stands behind the tag of an operation, read by a reader that may stand anywhere after a
//! fault.
ghost use Rattle.std.specs.Prelude.{◌≡◌, ℕ, true, ◌∷◌, [], IfOk};
ghost use Rattle.qs_codec.specs.Grammar.{Byte, Text};
ghost use Rattle.qs_codec.specs.Reading.{Reading, text_at};
ghost use Rattle.qs_ops.specs.Spelled.{IsName, IsOpText, IsSpelled, is_change};
ghost use Rattle.qs_ops.specs.declared.operation.Op.TheVariants.{Note};
ghost use Rattle.qs_record.specs.Grammar.{op_fields};
ghost use Rattle.qs_record.specs.Reading.{Finds, FindsIfRoom, TakesBehind, has_name_and_text, has_name, is_change_tag, name_and_text_at, one_text_at, timer_at, lend_at, extra_at, op_behind};

use crate::fault::RecordFault;
use crate::place::bad_tag;
use crate::texts::{NAME_LIMIT, TEXT_LIMIT, take_name_and_text, take_text};
use qs_base::{Bytes, ClientNo};
use qs_codec::{CodecFault, Reader};
use qs_ops::Op;
use std::alloc::Global;

// What stands behind a tag, which stood at the place of `before`.
#[tactic(auto, using(crate::proofs::Ops::listing_taken, crate::proofs::Ops::notes_taken), unfolding(crate::specs::Reading::op_behind))]
pub(crate) fn take_behind(
    alloc: Global,
    before: &Reader<'_>,
    tag: u8,
    reader: &mut Reader<'_>,
) -> Result<Op, RecordFault>
    ensures exact { FindsIfRoom result reader.new (op_behind before.now.at tag reader.old) }
    ensures value { IfOk result (TakesBehind tag reader.old reader.new) }
{
    match tag {
        1 | 2 | 8 | 12 | 14 => take_with_name_and_text(alloc, tag, reader),
        3 | 4 | 9 | 11 | 13 | 15 => take_with_name(alloc, tag, reader),
        5 => Ok(Op::Listing),
        6 => take_note(alloc, reader),
        7 => Ok(Op::Notes),
        10 => take_timer(alloc, reader),
        16 => Ok(take_lend(reader)?),
        17 => take_extra(alloc, reader),
        _ => Err(RecordFault::from(bad_tag(before, tag))),
    }
}

// What stands behind the tag of an operation of a name and a text.
#[tactic(auto, using(crate::proofs::Ops::two_taken), unfolding(crate::specs::Reading::op_behind, crate::specs::Reading::two_texts_at))]
fn take_with_name_and_text(
    alloc: Global,
    tag: u8,
    reader: &mut Reader<'_>,
) -> Result<Op, RecordFault>
    requires { has_name_and_text tag ≡ true }
    ensures exact { (at : ℕ) → FindsIfRoom result reader.new (op_behind at tag reader.old) }
    ensures value { IfOk result (TakesBehind tag reader.old reader.new) }
{
    let (name, text) = take_name_and_text(alloc, reader)?;
    Ok(with_name_and_text(tag, name, text))
}

// What stands behind the tag of an operation of a name alone.
#[tactic(auto, using(crate::proofs::Ops::one_taken), unfolding(crate::specs::Reading::op_behind, crate::specs::Reading::one_text_at))]
fn take_with_name(alloc: Global, tag: u8, reader: &mut Reader<'_>) -> Result<Op, RecordFault>
    requires { has_name tag ≡ true }
    ensures exact { (at : ℕ) → FindsIfRoom result reader.new (op_behind at tag reader.old) }
    ensures value { IfOk result (TakesBehind tag reader.old reader.new) }
{
    let name = take_text(alloc, reader, NAME_LIMIT)?;
    Ok(with_name(tag, name))
}

// The operation of that tag, of a name and a text.
#[tactic(auto, unfolding(crate::specs::Reading::op_behind, crate::specs::Reading::two_texts_at))]
fn with_name_and_text(tag: u8, name: Bytes, text: Bytes) -> Op
    requires { has_name_and_text tag ≡ true }
    ensures found { (at : ℕ) (r new : Reading) → name_and_text_at r ≡ Ok ((name, text), new) → op_behind at tag r ≡ Ok (result, new) }
    ensures fields { op_fields result ≡ Byte tag ∷ Text name ∷ Text text ∷ [] }
    ensures changes { is_change result ≡ is_change_tag tag }
    ensures valid { IsName name → IsOpText text → IsSpelled result }
{
    match tag {
        1 => Op::Put { name, text },
        2 => Op::Append { name, text },
        8 => Op::Bind { name, text },
        12 => Op::Window { name, text },
        _ => Op::Keep { name, text },
    }
}

// The operation of that tag, of a name alone.
#[tactic(auto, unfolding(crate::specs::Reading::op_behind, crate::specs::Reading::one_text_at))]
fn with_name(tag: u8, name: Bytes) -> Op
    requires { has_name tag ≡ true }
    ensures found { (at : ℕ) (r new : Reading) → text_at 64 r ≡ Ok (name, new) → op_behind at tag r ≡ Ok (result, new) }
    ensures fields { op_fields result ≡ Byte tag ∷ Text name ∷ [] }
    ensures changes { is_change result ≡ is_change_tag tag }
    ensures valid { IsName name → IsSpelled result }
{
    match tag {
        3 => Op::Del { name },
        4 => Op::Get { name },
        9 => Op::Find { name },
        11 => Op::Left { name },
        13 => Op::Title { name },
        _ => Op::Fetch { name },
    }
}

// The text of a note.
#[tactic(auto, using(crate::proofs::Ops::note_taken), unfolding(crate::specs::Reading::one_text_at))]
fn take_note(alloc: Global, reader: &mut Reader<'_>) -> Result<Op, RecordFault>
    ensures exact { FindsIfRoom result reader.new (one_text_at Note 4096 reader.old) }
    ensures value { IfOk result (TakesBehind 6 reader.old reader.new) }
{
    let text = take_text(alloc, reader, TEXT_LIMIT)?;
    Ok(Op::Note { text })
}

// The name of a timer, and its ticks.
#[tactic(auto, using(crate::proofs::Ops::timer_taken), unfolding(crate::specs::Reading::timer_at))]
fn take_timer(alloc: Global, reader: &mut Reader<'_>) -> Result<Op, RecordFault>
    ensures exact { FindsIfRoom result reader.new (timer_at reader.old) }
    ensures value { IfOk result (TakesBehind 10 reader.old reader.new) }
{
    let name = take_text(alloc, reader, NAME_LIMIT)?;
    let ticks = reader.u32()?;
    Ok(Op::Timer { name, ticks })
}

// The client of a loan.
#[tactic(auto, using(crate::proofs::Ops::lend_taken), unfolding(crate::specs::Reading::lend_at))]
fn take_lend(reader: &mut Reader<'_>) -> Result<Op, CodecFault>
    ensures exact { Finds result reader.new (lend_at reader.old) }
    ensures value { IfOk result (TakesBehind 16 reader.old reader.new) }
{
    let client = reader.u8()?;
    Ok(Op::Lend {
        client: ClientNo(client),
    })
}

// The code and the text of an operation of the further server.
#[tactic(auto, using(crate::proofs::Ops::extra_taken), unfolding(crate::specs::Reading::extra_at))]
fn take_extra(alloc: Global, reader: &mut Reader<'_>) -> Result<Op, RecordFault>
    ensures exact { FindsIfRoom result reader.new (extra_at reader.old) }
    ensures value { IfOk result (TakesBehind 17 reader.old reader.new) }
{
    let code = reader.u32()?;
    let text = take_text(alloc, reader, TEXT_LIMIT)?;
    Ok(Op::Extra { code, text })
}
