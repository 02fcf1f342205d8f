//! The journal of a run: what happened, entry by entry, and the commands that clients gave.
#![tactic(auto)]

mod entry;
mod merging;
mod script_line;

pub use entry::{Act, CrashCause, Entry, Found, copied_cause};
pub use merging::{merge, one_merge};
pub use script_line::{Command, LineAnswer, Point, PointKind, ScriptLine};
