//! The bytes of a disk in memory, those of its last sync, and the places written since.
ghost use Rattle.std.specs.Prelude.{◌≡◌, ◌≤◌, ◌<◌, ◌+◌, ◌-◌, ℕ, Bool, true, false, List, ◌++◌, length, take, drop, replicate, IfOk};
ghost use Rattle.qs_disk.specs.Cells.{IsQuiet, IsWithin, marked};
ghost use Rattle.qs_disk.specs.Disk.{IsImage, EachImage, StillLeaves, Matches, Torn, range, with_range};

use qs_base::NoMemory;
use rand_core::utils::NextWord;
use rand_pcg::Lcg64Xsh32;
use std::alloc::Global;
use std::marker::Model;

// No place outside `from..to` is loose, so that a sync looks at these alone. Where none is loose,
// `from` is the size and `to` is 0.
#[derive(Drop)]
pub struct Cells {
    content: Vec<u8>,
    stable: Vec<u8>,
    loose: Vec<bool>,
    from: usize,
    to: usize,
}

impl Model for Cells {
    ghost use Rattle.qs_disk.specs.Cells.{CellsValue, IsWithin};

    ghost Value = { CellsValue };

    ghost view = { λ c. record { content = c.content.items; now = record { stable = c.stable.items; loose = c.loose.items } } };

    ghost invariant = { λ c. IsWithin c.content.items c.stable.items c.loose.items c.from c.to };
}

impl Cells {
    // So many zeros, all synced.
    pub fn zeros(alloc: Global, size: usize) -> Result<Cells, NoMemory>
        ensures content { IfOk result (λ cells. cells.content ≡ replicate size 0) }
        ensures still { IfOk result (λ cells. EachImage (λ c. c ≡ cells.content) cells.now) }
    {
        let content = vec![in alloc; 0; size]?;
        let stable = vec![in alloc; 0; size]?;
        Ok(Cells::synced(content, stable, vec![in alloc; false; size]?))
    }

    // These bytes, all synced.
    pub fn from_bytes(alloc: Global, bytes: &[u8]) -> Result<Cells, NoMemory>
        ensures content { IfOk result (λ cells. cells.content ≡ bytes.now) }
        ensures still { IfOk result (λ cells. EachImage (λ c. c ≡ cells.content) cells.now) }
    {
        let content = Vec::from_slice(alloc, bytes)?;
        let stable = Vec::from_slice(alloc, bytes)?;
        Ok(Cells::synced(content, stable, vec![in alloc; false; bytes.len()]?))
    }

    fn synced(content: Vec<u8>, stable: Vec<u8>, loose: Vec<bool>) -> Cells
        requires same { stable.items ≡ content.items }
        requires quiet { loose.items ≡ replicate (length content.items) false }
        ensures content { result.content ≡ content.items }
        ensures still { EachImage (λ c. c ≡ result.content) result.now }
    {
        let from = content.len();
        Cells {
            content,
            stable,
            loose,
            from,
            to: 0,
        }
    }

    // What a read gives, which is an image.
    pub fn content(&self) -> &[u8]
        ensures value { result.now ≡ self.now.content }
        ensures image { IsImage self.now.now self.now.content }
    {
        self.content.as_slice()
    }

    // The bytes of the last sync.
    pub fn stable(&self) -> &Vec<u8>
        ensures { result.now.items ≡ self.now.now.stable }
    {
        &self.stable
    }

    // Which places were written since.
    pub fn loose(&self) -> &Vec<bool>
        ensures { result.now.items ≡ self.now.now.loose }
    {
        &self.loose
    }

    // Fills the buffer with the bytes from `at` on.
    pub fn read(&self, at: usize, buf: &mut [u8])
        requires { at + length buf.old ≤ length self.now.content }
        ensures { buf.new ≡ range at (length buf.old) self.now.content }
    {
        copy_out(&self.content, at, buf);
    }

    // Writes the bytes from `at` on.
    pub fn write(&mut self, at: usize, bytes: &[u8])
        requires { at + length bytes.now ≤ length self.old.content }
        ensures content { self.new.content ≡ with_range self.old.content at bytes.now }
        ensures as_long { length self.new.content ≡ length self.old.content }
        ensures images { (c : List ℕ) → IsImage self.new.now c → (d : List ℕ) × IsImage self.old.now d × Torn at (length bytes.now) d c }
        ensures keeps { StillLeaves self.old.now self.new.now }
    {
        put(&mut self.content, at, bytes);
        let end = at + bytes.len();
        mark(&mut self.loose, at, end, true);
        self.from = self.from.min(at);
        self.to = self.to.max(end);
    }

    // Makes the content the only image.
    pub fn sync(&mut self)
        ensures content { self.new.content ≡ self.old.content }
        ensures still { EachImage (λ c. c ≡ self.old.content) self.new.now }
    {
        settle(
            &mut self.stable,
            &mut self.loose,
            &self.content,
            self.from,
            self.to,
        );
        self.from = self.content.len();
        self.to = 0;
    }

    // Makes an image that is drawn the content, and the only image.
    pub fn cut(&mut self, rng: &mut Lcg64Xsh32)
        ensures left { IsImage self.old.now self.new.content }
        ensures as_long { length self.new.content ≡ length self.old.content }
        ensures still { EachImage (λ c. c ≡ self.new.content) self.new.now }
    {
        draw(
            rng,
            &self.stable,
            &self.loose,
            &mut self.content,
            self.from,
            self.to,
        );
        self.sync();
    }
}

fn copy_out(bytes: &[u8], at: usize, buf: &mut [u8])
    requires { at + length buf.old ≤ length bytes.now }
    ensures { buf.new ≡ range at (length buf.old) bytes.now }
{
    buf.copy_from_slice(&bytes[at..at + buf.len()]);
}

// Puts these bytes in place of as many from `at` on.
fn put(target: &mut Vec<u8>, at: usize, bytes: &[u8])
    requires { at + length bytes.now ≤ length target.old.items }
    ensures { target.new.items ≡ with_range target.old.items at bytes.now }
{
    target[at..at + bytes.len()].copy_from_slice(bytes);
}

// Sets the flags of `from..to`.
fn mark(loose: &mut Vec<bool>, from: usize, to: usize, flag: bool)
    requires ordered { from ≤ to }
    requires within { to ≤ length loose.old.items }
    ensures { loose.new.items ≡ marked from to flag loose.old.items }
{
    loose[from..to].fill(flag);
}

// Makes the stable bytes the content, and no place loose.
fn settle(stable: &mut Vec<u8>, loose: &mut Vec<bool>, content: &[u8], from: usize, to: usize)
    requires { IsWithin content.now stable.old.items loose.old.items from to }
    ensures same { stable.new.items ≡ content.now }
    ensures quiet { IsQuiet loose.new.items }
    ensures flags { length loose.new.items ≡ length loose.old.items }
{
    if to <= from {
        return;
    }
    put(stable, from, &content[from..to]);
    mark(loose, from, to, false);
}

// Draws each loose byte of `from..to`.
fn draw(
    rng: &mut Lcg64Xsh32,
    stable: &[u8],
    loose: &[bool],
    content: &mut Vec<u8>,
    from: usize,
    to: usize,
)
    requires bytes { length stable.now ≡ length content.old.items }
    requires flags { length loose.now ≡ length content.old.items }
    requires within { to ≤ length content.old.items }
    requires image { Matches stable.now loose.now content.old.items }
    ensures image { Matches stable.now loose.now content.new.items }
    ensures long { length content.new.items ≡ length content.old.items }
{
    for at in from..to {
        draw_at(rng, stable, loose, content, at);
    }
}

// Draws the byte at a place, if it is loose.
fn draw_at(rng: &mut Lcg64Xsh32, stable: &[u8], loose: &[bool], content: &mut Vec<u8>, at: usize)
    requires bytes { length stable.now ≡ length content.old.items }
    requires flags { length loose.now ≡ length content.old.items }
    requires within { at < length content.old.items }
    requires image { Matches stable.now loose.now content.old.items }
    ensures image { Matches stable.now loose.now content.new.items }
    ensures long { length content.new.items ≡ length content.old.items }
{
    if !loose[at] {
        return;
    }
    content[at] = drawn(rng.next_word(), stable[at], content[at]);
}

// The old byte, the new one, or any byte, each a third of the time.
fn drawn(word: u32, old: u8, new: u8) -> u8 {
    match (word >> 8) % 3 {
        0 => old,
        1 => new,
        _ => (word & 0xff) as u8,
    }
}
