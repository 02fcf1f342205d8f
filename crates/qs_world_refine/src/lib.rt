//! The world of nodes runs by the agreement machine's events.
#![tactic(auto)]

pub mod begins;
pub mod events;
pub mod laws;
pub mod moves;
pub mod rules;
pub mod shown;
pub mod sound_rules;
pub mod starts;
pub mod steadies;
pub mod steps;
pub mod trials;
