//! A reader of fields, front to back.
ghost use Rattle.std.specs.Prelude.{◌≡◌, ℕ, List, length, IfOk, IsOkAnd, Ok, ◌≤◌};
ghost use Rattle.std.specs.Int.{w8, w32, w64};
ghost use Rattle.qs_codec.specs.Grammar.{Byte, Word, Long, Number, Text};
ghost use Rattle.qs_codec.specs.Reading.{left_of, IsNext, Reads, Gives, integer_at, number_at, text_at};

use crate::fault::CodecFault;
use crate::parts::{byte_at, long_at, number_at, text_at, word_at};
use std::marker::Model;

/// A reader of fields, which stands at a place of its bytes. After a fault it stands where the field
/// began.
#[derive(Drop)]
pub struct Reader<'a> {
    bytes: &'a [u8],
    at: usize,
}

impl<'a> Model for Reader<'a> {
    ghost use Rattle.std.specs.Prelude.{◌≤◌, length, All};
    ghost use Rattle.qs_codec.specs.Grammar.{IsByte};
    ghost use Rattle.qs_codec.specs.Reading.{Reading};

    ghost Value = { Reading };

    ghost view = { λ r. record { bytes = r.bytes.now; at = r.at } };

    ghost invariant = { λ r. (r.at ≤ length r.bytes.now) × All IsByte r.bytes.now };
}

impl<'a> Reader<'a> {
    /// A reader that stands at the first of these bytes.
    pub fn new(bytes: &'a [u8]) -> Reader<'a>
        ensures { result ≡ record { bytes = bytes.now; at = 0 } }
    {
        Reader { bytes, at: 0 }
    }

    /// A second reader that stands at the same place of the same bytes.
    pub fn ahead(&self) -> Reader<'a>
        ensures { result ≡ self.now }
    {
        Reader {
            bytes: self.bytes,
            at: self.at,
        }
    }

    /// How many bytes are left.
    pub fn left(&self) -> usize
        ensures { result ≡ length (left_of self.now) }
    {
        self.bytes.len() - self.at
    }

    /// One byte. `Short` comes where none is left.
    pub fn u8(&mut self) -> Result<u8, CodecFault>
        // A value exactly where the next bytes spell it, and just these are taken.
        ensures value { IfOk result (λ n. Reads (Byte n) self.old self.new) }
        ensures only { (n : ℕ) → IsNext (Byte n) self.old → result ≡ Ok n }

        // Which value or fault it is; after a fault nothing is taken.
        ensures exact { Gives (λ n. n) result self.old self.new (integer_at w8 self.old) }
    {
        let number = byte_at(self.bytes, self.at)?;
        self.at += 1;
        Ok(number)
    }

    /// A number of four bytes. `Short` comes where fewer are left.
    pub fn u32(&mut self) -> Result<u32, CodecFault>
        // A value exactly where the next bytes spell it, and just these are taken.
        ensures value { IfOk result (λ n. Reads (Word n) self.old self.new) }
        ensures only { (n : ℕ) → IsNext (Word n) self.old → result ≡ Ok n }

        // Which value or fault it is; after a fault nothing is taken.
        ensures exact { Gives (λ n. n) result self.old self.new (integer_at w32 self.old) }
    {
        let number = word_at(self.bytes, self.at)?;
        self.at += 4;
        Ok(number)
    }

    /// A number of eight bytes. `Short` comes where fewer are left.
    pub fn u64(&mut self) -> Result<u64, CodecFault>
        // A value exactly where the next bytes spell it, and just these are taken.
        ensures value { IfOk result (λ n. Reads (Long n) self.old self.new) }
        ensures only { (n : ℕ) → IsNext (Long n) self.old → result ≡ Ok n }

        // Which value or fault it is; after a fault nothing is taken.
        ensures exact { Gives (λ n. n) result self.old self.new (integer_at w64 self.old) }
    {
        let number = long_at(self.bytes, self.at)?;
        self.at += 8;
        Ok(number)
    }

    /// A number below 2^62, in eight bytes. `Short` comes where fewer are left, and `BadNumber`
    /// where they spell a greater one.
    pub fn number(&mut self) -> Result<u64, CodecFault>
        // A value exactly where the next bytes spell it, and just these are taken.
        ensures value { IfOk result (λ n. Reads (Number n) self.old self.new) }
        ensures only { (n : ℕ) → IsNext (Number n) self.old → result ≡ Ok n }

        // Which value or fault it is; after a fault nothing is taken.
        ensures exact { Gives (λ n. n) result self.old self.new (number_at self.old) }
    {
        let number = number_at(self.bytes, self.at)?;
        self.at += 8;
        Ok(number)
    }

    /// A text of at most `max` bytes, each of 32 to 126, behind its length in four bytes. `Short`
    /// comes where the length, or the text that it tells, is cut off; `TooLong` where the length is
    /// above `max`; `BadText` where a byte of the text is another one.
    pub fn text(&mut self, max: u32) -> Result<&'a [u8], CodecFault>
        // A value exactly where the next bytes spell it, and just these are taken.
        ensures value { IfOk result (λ text. Reads (Text text.now) self.old self.new) }
        ensures fits { IfOk result (λ text. length text.now ≤ max) }
        ensures only { (text : List ℕ) → length text ≤ max → IsNext (Text text) self.old → IsOkAnd result (λ found. found.now ≡ text) }

        // Which value or fault it is; after a fault nothing is taken.
        ensures exact { Gives (λ text. text.now) result self.old self.new (text_at max self.old) }
    {
        let text = text_at(self.bytes, self.at, max)?;
        self.at += 4 + text.len();
        Ok(text)
    }
}
