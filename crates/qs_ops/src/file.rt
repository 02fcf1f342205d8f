//! Files.

use qs_base::Bytes;

/// A file of a node.
#[derive(Debug, Drop)]
pub struct File {
    pub name: Bytes,
    pub content: Bytes,
}
