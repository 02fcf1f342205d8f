//! Contents under names: texts in pieces, and for each transaction what it is about to make of a text and what it read.
#![tactic(auto)]

mod counting;
mod edit;
mod prepared;
mod slot;
mod slots;
mod text;
mod under;
mod writing;

pub use edit::{Change, Edit};
pub use prepared::{Prepared, prepare};
pub use slot::{FileText, Look};
pub use slots::FileTexts;
pub use text::Text;
