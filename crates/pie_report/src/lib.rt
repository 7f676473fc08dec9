//! What became of a build, and its text.
#![tactic(auto)]

mod cause;
mod lines;
mod object;
mod reason;
mod report;
mod task_order;
mod text;
mod verdict;

pub use object::print_json;
pub use reason::{bad_input, bad_pipeline, bad_roots};
pub use report::Report;
pub use text::print;
