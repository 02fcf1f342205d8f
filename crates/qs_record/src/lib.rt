//! Identifiers, members, lists of nodes, operations and records as bytes, each with one spelling.
#![tactic(auto)]

mod bytes_where;
mod decoding;
mod fault;
mod laws;
mod op_behind;
mod op_parts;
mod op_taking;
mod op_writing;
mod place;
mod reading;
mod record;
mod record_taking;
mod record_writing;
mod taking;
mod texts;
mod writing;

pub use decoding::{decode, decode_op};
pub use fault::RecordFault;
pub use laws::{no_prefix, one_spelling, reads_back, spelled_length, valid};
pub use op_writing::encode_op;
pub use reading::{read_member, read_nodes, read_tid};
pub use record::Record;
pub use record_writing::{encode, length};
pub use writing::{put_member, put_nodes, put_tid};
