//! Tests of the crates from lists of bytes to the records of a log: what no contract says of them, and that
//! their calls answer where there is memory. They stand here since a crate with tests is proved twice.
#![tactic(auto)]

#[cfg(test)]
mod base;
#[cfg(test)]
mod batch;
#[cfg(test)]
mod codec;
#[cfg(test)]
mod disk;
#[cfg(test)]
mod file;
#[cfg(test)]
mod io;
#[cfg(test)]
mod map;
#[cfg(test)]
mod record;
#[cfg(test)]
mod restart;
#[cfg(test)]
mod samples;
#[cfg(test)]
mod slot;
