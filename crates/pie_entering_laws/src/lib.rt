//! The tasks that a clean build of a typed pipeline enters are tasks of its functions.
#![tactic(auto)]

mod laws;

pub use laws::{entered_tasks_are_known, required_tasks_have_functions};
