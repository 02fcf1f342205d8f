//! Laws of the grammar and of reading back. Each is a function that does nothing.
ghost use Rattle.std.specs.Prelude.{◌≡◌, ℕ, ◌≤◌, List, ◌++◌, length, Ok};
ghost use Rattle.std.specs.Int.{w8, w32, w64};
ghost use Rattle.qs_codec.specs.Grammar.{Field, Byte, Word, Long, Number, Text, Spells, IsSameKind};
ghost use Rattle.qs_codec.specs.Reading.{reading_at, integer_at, number_at, text_at};
ghost use Rattle.qs_codec.specs.Writing.{Appends};

/// Each field has one spelling.
pub fn one_spelling()
    ensures { (f : Field) (a b : List ℕ) → Spells f a → Spells f b → a ≡ b }
{}

/// No spelling is a front of another field's of its kind: where two stand at the front of one list,
/// the fields are one, and so are the spellings.
pub fn no_prefix()
    ensures { (f g : Field) (a b x y : List ℕ) → IsSameKind f g → Spells f a → Spells g b → a ++ x ≡ b ++ y → (f ≡ g) × (a ≡ b) }
{}

/// What was written is read again, whatever follows, and the reader then stands behind it.
pub fn reads_back()
    ensures byte { (n : ℕ) (old new rest : List ℕ) → Appends (Byte n) old new
        → integer_at w8 (reading_at (new ++ rest) (length old)) ≡ Ok (n, reading_at (new ++ rest) (length new)) }
    ensures word { (n : ℕ) (old new rest : List ℕ) → Appends (Word n) old new
        → integer_at w32 (reading_at (new ++ rest) (length old)) ≡ Ok (n, reading_at (new ++ rest) (length new)) }
    ensures long { (n : ℕ) (old new rest : List ℕ) → Appends (Long n) old new
        → integer_at w64 (reading_at (new ++ rest) (length old)) ≡ Ok (n, reading_at (new ++ rest) (length new)) }
    ensures number { (n : ℕ) (old new rest : List ℕ) → Appends (Number n) old new
        → number_at (reading_at (new ++ rest) (length old)) ≡ Ok (n, reading_at (new ++ rest) (length new)) }
    ensures text { (max : ℕ) (text old new rest : List ℕ) → length text ≤ max → Appends (Text text) old new
        → text_at max (reading_at (new ++ rest) (length old)) ≡ Ok (text, reading_at (new ++ rest) (length new)) }
{}
