//! Fields of records and packets as big-endian bytes: read, written, and each with one spelling.
#![tactic(auto)]

mod fault;
mod laws;
mod parts;
mod reader;
mod writing;

pub use fault::CodecFault;
pub use laws::{no_prefix, one_spelling, reads_back};
pub use reader::Reader;
pub use writing::{put_text, put_u8, put_u32, put_u64};
