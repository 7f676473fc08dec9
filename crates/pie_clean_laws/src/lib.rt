//! A directory has one project, clean builds of the same files leave the same, and an accepted build is one that the next can be based on.
#![tactic(auto)]

mod basing;
mod left;
mod projects;
mod sources;
mod told;

pub use basing::builds_are_bases;
pub use left::{clean_builds_leave, same_files_leave_the_same};
pub use projects::projects_are_one;
pub use sources::sources_decide;
pub use told::reports_are_one;
