//! A project in a directory: its pipeline and its roots, read and checked.
#![tactic(auto)]

mod check;
mod fault;
mod load;
mod pipeline;
mod project;
mod roots;

pub use check::check_project;
pub use fault::{BuildError, PipelineFault, RootsReason};
pub use project::{Project, read_project};
