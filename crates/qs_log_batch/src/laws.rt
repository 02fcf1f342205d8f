//! Laws of what an area counts. Each is a function that does nothing.
ghost use Rattle.std.specs.Prelude.{◌≡◌, ℕ, List, [], ◌∷◌, ◌++◌, length, take, sum_by, ◌+◌};
ghost use Rattle.qs_record.specs.declared.record.Record.{Record};
ghost use Rattle.qs_log_batch.specs.Batch.{SpellsBatch, IsClosed, Counts, IsBroken, IsCounted, batch_length};

/// An area is counted in one way.
pub fn counted_once()
    ensures batches { (format : ℕ) (bs cs : List (List Record)) (area : List ℕ) → Counts format bs area → Counts format cs area → bs ≡ cs }
    ensures records { (format : ℕ) (area : List ℕ) (rs ss : List Record) (m n : ℕ) → IsCounted format area rs m → IsCounted format area ss n → (rs ≡ ss) × (m ≡ n) }
{}

/// An area that is counted is broken nowhere, and a broken one at one place.
pub fn broken_once()
    ensures counted { (format : ℕ) (bs : List (List Record)) (area : List ℕ) (at : ℕ) → Counts format bs area → IsBroken format area at → ⊥ }
    ensures place { (format : ℕ) (area : List ℕ) (m n : ℕ) → IsBroken format area m → IsBroken format area n → m ≡ n }
{}

/// A batch takes 41 bytes and those of its records, and stands before no other bytes as another batch.
pub fn spelled_once()
    ensures long { (format : ℕ) (b : List Record) (bytes : List ℕ) → SpellsBatch format b bytes → length bytes ≡ batch_length b }
    ensures front { (format : ℕ) (b c : List Record) (a d x y : List ℕ) → SpellsBatch format b a → SpellsBatch format c d → a ++ x ≡ d ++ y → (b ≡ c) × (a ≡ d) }
{}

/// An area as long as another one, with the same bytes up to the gate behind its batches and with
/// that gate, has the same batches. One with one more batch over that gate, and no open gate behind
/// it, has one more.
pub fn counted_on()
    ensures behind { (format : ℕ) (bs : List (List Record)) (area other : List ℕ) → Counts format bs area → length other ≡ length area
        → take (sum_by batch_length bs + 1) other ≡ take (sum_by batch_length bs + 1) area → Counts format bs other }
    ensures more { (format : ℕ) (bs : List (List Record)) (b : List Record) (area other part rest : List ℕ) → Counts format bs area → SpellsBatch format b part
        → other ≡ take (sum_by batch_length bs) area ++ part ++ rest → IsClosed rest → Counts format (bs ++ b ∷ []) other }
{}
