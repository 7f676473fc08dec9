//! What the tasks that run and wait in a build by what changed are in the model of building.
#![tactic(auto)]

mod answering;
mod beginning;
mod coming;
mod steps;
mod telling;
mod whole;

pub use answering::requirers_are_answered;
pub use beginning::tasks_begin;
pub use coming::tasks_pause;
pub use steps::{builds_step, running_tasks_stay};
pub use telling::running_tasks_are_told;
pub use whole::{tasks_end, tasks_go_on};
