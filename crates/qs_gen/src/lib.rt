//! Load scripts: scripts for four nodes, made from a seed.
#![tactic(auto)]

mod draft;
mod lines;

ghost use Rattle.std.specs.Prelude.{◌≡◌, IfOk};
ghost use Rattle.qs_gen.specs.Load.{load_script};

use crate::draft::Draft;
pub use lines::NODE_COUNT;
use qs_base::{Bytes, NoMemory};
use std::alloc::Global;

/// The load script of a seed: eight clients at four nodes, with forty transactions each that put four files. No two
/// transactions name the same file. The only error is a refusal of memory.
pub fn load_script(alloc: Global, seed: u64) -> Result<Bytes, NoMemory>
    ensures { IfOk result (λ text. text ≡ load_script seed) }
{
    let mut draft = Draft::new(alloc, seed);
    draft.add_clients(alloc)?;
    draft.add_commands(alloc)?;
    Ok(draft.into_text())
}
