//! One-phase servers of a node: timers, windows and scratch.
#![tactic(auto)]

mod scratch;
mod timer_share;
mod timers;
mod windows;

pub use scratch::Scratch;
pub use timers::Timers;
pub use windows::Windows;
