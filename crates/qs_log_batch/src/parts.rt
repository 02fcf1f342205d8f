//! The parts of a batch that may stand at the front of an area.
ghost use Rattle.std.specs.Prelude.{◌≡◌, ◌==◌, ◌↔◌, ℕ, [], ◌∷◌, ◌++◌, length, slice_index, MatchOption, IsTrue};
ghost use Rattle.sha2.specs.Sha256.{sha256};
ghost use Rattle.qs_codec.specs.Grammar.{Word, Spells};
ghost use Rattle.qs_record.specs.Grammar.{SpellsAll};
ghost use Rattle.qs_log_batch.specs.Reading.{HasNone, IsCut};

use sha2::{Digest, Sha256};

// A gate, a length and a count take 9 bytes, and the digest 32.
const FRONT: usize = 9;

const DIGEST: usize = 32;

// What stands behind an open gate, where nothing is cut off by the area's end.
#[derive(Clone, Copy)]
pub(crate) struct Parts<'a> {
    // 8 bytes: the body's length, and the count.
    pub(crate) head: &'a [u8],
    pub(crate) count: u32,
    pub(crate) body: &'a [u8],
    pub(crate) digest: &'a [u8],
}

// The parts at the front of an area; without them no batch stands there.
pub(crate) fn parts_at(area: &[u8]) -> Option<Parts<'_>>
    requires { slice_index area.now 0 ≡ 1 }
    ensures { MatchOption result (HasNone 1 area.now) (λ p. IsCut area.now p.head.now p.count p.body.now p.digest.now) }
{
    if area.len() < FRONT {
        return None;
    }
    let (_, behind_gate) = area.split_at(1);
    let (head, behind_head) = behind_gate.split_at(8);
    let (size, count) = head_of(head);
    let size = size as usize;
    if behind_head.len() < size + DIGEST {
        return None;
    }
    let (body, behind_body) = behind_head.split_at(size);
    let (digest, _) = behind_body.split_at(DIGEST);
    Some(Parts {
        head,
        count,
        body,
        digest,
    })
}

// The two numbers that eight bytes spell.
fn head_of(head: &[u8]) -> (u32, u32)
    requires { length head.now ≡ 8 }
    ensures { SpellsAll (Word result.0 ∷ Word result.1 ∷ []) head.now }
{
    let (first, second) = head.split_at(4);
    (word_of(first), word_of(second))
}

// The number that four bytes spell.
fn word_of(bytes: &[u8]) -> u32
    requires { length bytes.now ≡ 4 }
    ensures { Spells (Word result) bytes.now }
{
    u32::from_be_bytes([bytes[0], bytes[1], bytes[2], bytes[3]])
}

impl Parts<'_> {
    // Whether no records are counted.
    pub(crate) fn is_empty(&self) -> bool
        ensures { result ≡ (self.now.count == 0) }
    {
        self.count == 0
    }

    // Whether the digest is that of length, count and records.
    pub(crate) fn is_intact(&self) -> bool
        ensures { IsTrue result ↔ (self.now.digest.now ≡ sha256 (self.now.head.now ++ self.now.body.now)) }
    {
        let mut hasher = Sha256::new();
        hasher.update(self.head);
        hasher.update(self.body);
        let digest = hasher.finalize();
        self.digest == digest.as_slice()
    }
}
