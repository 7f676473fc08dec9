//! The printed form of a task, cut into tokens.
#![tactic(auto)]

mod laws;

pub use laws::printed_tasks_are_cut;
