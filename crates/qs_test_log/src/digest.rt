//! The digest whose cost is counted.

use anyhow::Error;
use sha2::{Digest, Sha256};

/// Prints the digest of the three bytes `abc`, which FIPS 180-4 tells.
pub(crate) fn show_digest<R: Print>(rt: &R) -> Result<(), Error> {
    let mut hasher = Sha256::new();
    hasher.update(b"abc".as_slice());
    let digest = hasher.finalize();
    print!(rt; "digest of abc ")?;
    for byte in digest.iter() {
        print!(rt; "{byte:02x}")?;
    }
    println!(rt)?;
    Ok(())
}
