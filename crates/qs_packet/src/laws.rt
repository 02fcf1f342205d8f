//! Laws of the grammar and of reading back. Each is a function that does nothing.
ghost use Rattle.std.specs.Prelude.{◌≡◌, ℕ, List, ◌++◌, Ok};
ghost use Rattle.qs_packet.specs.declared.packet.Packet.{Packet};
ghost use Rattle.qs_packet.specs.Grammar.{IsPacket, SpellsPacket};
ghost use Rattle.qs_packet.specs.Reading.{decoded};

/// Each packet has one spelling.
pub fn one_spelling()
    ensures { (p : Packet) (a b : List ℕ) → SpellsPacket p a → SpellsPacket p b → a ≡ b }
{}

/// No spelling is a front of another's: where two stand at the front of one list, the packets are
/// one, and so are the spellings.
pub fn no_prefix()
    ensures { (p q : Packet) (a b x y : List ℕ) → SpellsPacket p a → SpellsPacket q b → a ++ x ≡ b ++ y → (p ≡ q) × (a ≡ b) }
{}

/// What spells a packet is read as that packet.
pub fn reads_back()
    ensures { (p : Packet) (bytes : List ℕ) → SpellsPacket p bytes → decoded bytes ≡ Ok p }
{}

/// What is spelled has a spelling.
pub fn valid()
    ensures { (p : Packet) (bytes : List ℕ) → SpellsPacket p bytes → IsPacket p }
{}
