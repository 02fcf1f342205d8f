//! Want of memory ends the program.

use anyhow::{Error, bail};
use qs_base::NoMemory;

/// What was made, unless memory was refused.
pub fn made<T: Drop>(given: Result<T, NoMemory>) -> Result<T, Error> {
    match given {
        Ok(value) => Ok(value),
        Err(NoMemory) => bail!("no memory"),
    }
}
