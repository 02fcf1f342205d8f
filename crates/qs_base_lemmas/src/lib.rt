//! Lemmas alone: what tests of truth values, numbers and options tell, for the proofs of many crates.
#![tactic(auto)]
