//! The model of building over a pipeline: what its tasks, answers and records are among those of the language.
#![tactic(auto)]

mod laws;

pub use laws::{answers_come_back, bytes_tell_tasks_and_values, tasks_mean_themselves};
