//! Tests of the crates of one node's protocol, its servers, clients and journal: what no contract says of them, and
//! that their calls answer where there is memory. They stand here since a crate with tests is proved twice.
#![tactic(auto)]

#[cfg(test)]
mod audit;
#[cfg(test)]
mod client;
#[cfg(test)]
mod engage;
#[cfg(test)]
mod journal;
#[cfg(test)]
mod samples;
#[cfg(test)]
mod session;
#[cfg(test)]
mod tm;
