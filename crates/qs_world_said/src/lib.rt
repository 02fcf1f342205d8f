//! What clients say and are told in a step of their node keeps to the rules of clients.
#![tactic(auto)]

mod deeds;
mod steps;

pub use deeds::{
    answers_keep_to_the_script, begins_keep_to_the_script, commands_keep_to_the_script,
    lines_come_on_course, serves_keep_to_the_script, the_unseen_stays,
};
pub use steps::{
    hands_stay_said, labels_stay_told, lawful_steps_keep_to_the_script,
    lawful_steps_leave_clients_standing, names_are_known_amid, names_stand_at_each_turn,
    outcomes_stay_told, stages_know_the_machine, steps_keep_names, steps_keep_to_the_script,
    steps_leave_open_what_waits,
};
