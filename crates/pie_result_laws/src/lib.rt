//! The result of a build by what changed is that of a clean build.
#![tactic(auto)]

mod accepted;
mod verdicts;

pub use accepted::accepted_results_are_clean;
pub use verdicts::results_have_the_verdict;
