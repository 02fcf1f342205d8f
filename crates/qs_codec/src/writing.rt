//! Fields written at the end of a list of bytes.
ghost use Rattle.std.specs.Prelude.{◌≡◌, ◌^◌, ◌<◌, ◌++◌, length, All, OnOk, OnErr};
ghost use Rattle.qs_codec.specs.Grammar.{Byte, Word, Long, Number, Text};
ghost use Rattle.qs_base.specs.Printable.{IsPrintable};
ghost use Rattle.qs_codec.specs.Writing.{Appends};

use qs_base::{List, NoMemory};

/// Adds one byte at the end. After `NoMemory`, which comes where memory was refused, the list is as
/// it was.
pub fn put_u8(out: &mut List<u8>, value: u8) -> Result<(), NoMemory>
    ensures ok { OnOk result (Appends (Byte value) out.old out.new) }
    ensures err { OnErr result (out.new ≡ out.old) }
{
    out.push(value)
}

/// Adds a number in four bytes at the end. After `NoMemory`, which comes where memory was refused,
/// the list is as it was.
pub fn put_u32(out: &mut List<u8>, value: u32) -> Result<(), NoMemory>
    ensures ok { OnOk result (Appends (Word value) out.old out.new) }
    ensures err { OnErr result (out.new ≡ out.old) }
{
    append(out, &value.to_be_bytes(), &[])
}

/// Adds a number in eight bytes at the end; one below 2^62 is read by `number` too. After
/// `NoMemory`, which comes where memory was refused, the list is as it was.
pub fn put_u64(out: &mut List<u8>, value: u64) -> Result<(), NoMemory>
    ensures ok { OnOk result (Appends (Long value) out.old out.new) }
    ensures number { OnOk result (value < 2 ^ 62 → Appends (Number value) out.old out.new) }
    ensures err { OnErr result (out.new ≡ out.old) }
{
    append(out, &value.to_be_bytes(), &[])
}

/// Adds a text at the end, behind its length in four bytes. After `NoMemory`, which comes where
/// memory was refused, the list is as it was.
pub fn put_text(out: &mut List<u8>, text: &[u8]) -> Result<(), NoMemory>
    requires printable { All IsPrintable text.now }
    requires length { length text.now < 2 ^ 32 }
    ensures ok { OnOk result (Appends (Text text.now) out.old out.new) }
    ensures err { OnErr result (out.new ≡ out.old) }
{
    append(out, &(text.len() as u32).to_be_bytes(), text)
}

// Adds the head and then the rest at the end, or neither.
fn append(out: &mut List<u8>, head: &[u8], rest: &[u8]) -> Result<(), NoMemory>
    ensures ok { OnOk result (out.new ≡ out.old ++ (head.now ++ rest.now)) }
    ensures err { OnErr result (out.new ≡ out.old) }
{
    let len = out.len();
    out.append(head)?;
    let added = out.append(rest);
    if added.is_err() {
        out.truncate(len);
    }
    added
}
