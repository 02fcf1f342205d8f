//! Laws of the grammar and of reading back. Each is a function that does nothing.
ghost use Rattle.std.specs.Prelude.{◌≡◌, ℕ, ◌+◌, sum_by, List, ◌++◌, length, Ok};
ghost use Rattle.qs_base.specs.declared.identifiers.Member.{Member};
ghost use Rattle.qs_base.specs.declared.identifiers.NodeNo.{NodeNo};
ghost use Rattle.qs_base.specs.declared.identifiers.Tid.{Tid};
ghost use Rattle.qs_codec.specs.Reading.{reading_at};
ghost use Rattle.qs_ops.specs.declared.operation.Op.{Op};
ghost use Rattle.qs_ops.specs.Spelled.{IsSpelled, AreChanges, op_length};
ghost use Rattle.qs_record.specs.declared.record.Record.{Record};
ghost use Rattle.qs_record.specs.Grammar.{IsTid, SpellsTid, IsMember, SpellsMember, AreNodes, SpellsNodes, SpellsOp, SpellsChanges, IsRecord, SpellsRecord, record_length};
ghost use Rattle.qs_record.specs.Reading.{tid_at, member_at, nodes_at, op_at, changes_at, record_at};
ghost use Rattle.qs_record.specs.Writing.{Adds};

/// Each value has one spelling.
pub fn one_spelling()
    ensures tid { (tid : Tid) (a b : List ℕ) → SpellsTid tid a → SpellsTid tid b → a ≡ b }
    ensures member { (member : Member) (a b : List ℕ) → SpellsMember member a → SpellsMember member b → a ≡ b }
    ensures nodes { (nodes : List NodeNo) (a b : List ℕ) → SpellsNodes nodes a → SpellsNodes nodes b → a ≡ b }
    ensures op { (op : Op) (a b : List ℕ) → SpellsOp op a → SpellsOp op b → a ≡ b }
    ensures changes { (changes : List Op) (a b : List ℕ) → SpellsChanges changes a → SpellsChanges changes b → a ≡ b }
    ensures rec { (rec : Record) (a b : List ℕ) → SpellsRecord rec a → SpellsRecord rec b → a ≡ b }
{}

/// No spelling is a front of another's: where two stand at the front of one list, the values are one,
/// and so are the spellings.
pub fn no_prefix()
    ensures tid { (s t : Tid) (a b x y : List ℕ) → SpellsTid s a → SpellsTid t b → a ++ x ≡ b ++ y → (s ≡ t) × (a ≡ b) }
    ensures member { (m n : Member) (a b x y : List ℕ) → SpellsMember m a → SpellsMember n b → a ++ x ≡ b ++ y → (m ≡ n) × (a ≡ b) }
    ensures nodes { (ms ns : List NodeNo) (a b x y : List ℕ) → SpellsNodes ms a → SpellsNodes ns b → a ++ x ≡ b ++ y → (ms ≡ ns) × (a ≡ b) }
    ensures op { (o p : Op) (a b x y : List ℕ) → SpellsOp o a → SpellsOp p b → a ++ x ≡ b ++ y → (o ≡ p) × (a ≡ b) }
    ensures changes { (os ps : List Op) (a b x y : List ℕ) → SpellsChanges os a → SpellsChanges ps b → a ++ x ≡ b ++ y → (os ≡ ps) × (a ≡ b) }
    ensures rec { (q r : Record) (a b x y : List ℕ) → SpellsRecord q a → SpellsRecord r b → a ++ x ≡ b ++ y → (q ≡ r) × (a ≡ b) }
{}

/// What was written is read again, whatever follows, and the reader then stands behind it.
pub fn reads_back()
    ensures tid { (tid : Tid) (old new rest : List ℕ) → Adds (SpellsTid tid) old new
        → tid_at (reading_at (new ++ rest) (length old)) ≡ Ok (tid, reading_at (new ++ rest) (length new)) }
    ensures member { (member : Member) (old new rest : List ℕ) → Adds (SpellsMember member) old new
        → member_at (reading_at (new ++ rest) (length old)) ≡ Ok (member, reading_at (new ++ rest) (length new)) }
    ensures nodes { (nodes : List NodeNo) (old new rest : List ℕ) → Adds (SpellsNodes nodes) old new
        → nodes_at (reading_at (new ++ rest) (length old)) ≡ Ok (nodes, reading_at (new ++ rest) (length new)) }
    ensures op { (op : Op) (old new rest : List ℕ) → Adds (SpellsOp op) old new
        → op_at (reading_at (new ++ rest) (length old)) ≡ Ok (op, reading_at (new ++ rest) (length new)) }
    ensures changes { (changes : List Op) (old new rest : List ℕ) → Adds (SpellsChanges changes) old new
        → changes_at (reading_at (new ++ rest) (length old)) ≡ Ok (changes, reading_at (new ++ rest) (length new)) }
    ensures rec { (rec : Record) (old new rest : List ℕ) → Adds (SpellsRecord rec) old new
        → record_at (reading_at (new ++ rest) (length old)) ≡ Ok (rec, reading_at (new ++ rest) (length new)) }
{}

/// How many bytes spell each value.
pub fn spelled_length()
    ensures tid { (tid : Tid) (part : List ℕ) → SpellsTid tid part → length part ≡ 13 }
    ensures member { (member : Member) (part : List ℕ) → SpellsMember member part → length part ≡ 2 }
    ensures nodes { (nodes : List NodeNo) (part : List ℕ) → SpellsNodes nodes part → length part ≡ 1 + length nodes }
    ensures op { (op : Op) (part : List ℕ) → SpellsOp op part → length part ≡ op_length op }
    ensures changes { (changes : List Op) (part : List ℕ) → SpellsChanges changes part → length part ≡ 4 + sum_by op_length changes }
    ensures rec { (rec : Record) (part : List ℕ) → SpellsRecord rec part → length part ≡ record_length rec }
{}

/// What is spelled has a spelling.
pub fn valid()
    ensures tid { (tid : Tid) (part : List ℕ) → SpellsTid tid part → IsTid tid }
    ensures member { (member : Member) (part : List ℕ) → SpellsMember member part → IsMember member }
    ensures nodes { (nodes : List NodeNo) (part : List ℕ) → SpellsNodes nodes part → AreNodes nodes }
    ensures op { (op : Op) (part : List ℕ) → SpellsOp op part → IsSpelled op }
    ensures changes { (changes : List Op) (part : List ℕ) → SpellsChanges changes part → AreChanges changes }
    ensures rec { (rec : Record) (part : List ℕ) → SpellsRecord rec part → IsRecord rec }
{}
