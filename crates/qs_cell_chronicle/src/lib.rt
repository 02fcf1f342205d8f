//! What a cell of a node carries through crashes: what it tells, the commands that are not answered, and the lines of the
//! script that stop the node before or after an entry.
#![tactic(auto)]

mod carried;
mod chronicle;
mod occasion;
mod points;
mod tape;

pub use carried::{Carried, HeldCommand, answer_all, is_replaced, take_in_hand};
pub use chronicle::{Chronicle, LAST_STAMP};
pub use occasion::Occasion;
pub use points::{Watched, any_stops_after, any_stops_before, pass, spend};
pub use tape::Tape;
