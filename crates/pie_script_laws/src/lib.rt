//! What one build by what changed leaves is what the next one goes on from, so each build of a script is as a clean build.
#![tactic(auto)]

mod finding;
mod scripts;

pub use finding::found_builds_go_on;
pub use scripts::scripts_are_clean;
