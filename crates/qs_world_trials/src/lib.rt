//! What goes along every run, tried on whole runs, field by field, and small runs over which a rule that is broken shows.
#![tactic(auto)]

mod along;
mod joined;
mod scripts;
mod shown;
mod small;

pub use along::{along_held_in_runs, along_may_fail};
pub use joined::{joined_held_in_runs, joined_may_fail};
pub use scripts::{
    courses_go_with_worlds, courses_may_fail, journals_keep_to_scripts, scripts_may_be_broken,
};
pub use shown::{shown_held_in_runs, shown_may_fail};
pub use small::small_runs_are_lawful;
