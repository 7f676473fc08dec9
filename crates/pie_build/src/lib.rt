//! A clean build of a directory, put into place.
#![tactic(auto)]

mod building;
mod outcome;
mod paths;
mod place;
mod store;
mod tasks;

pub use building::rebuild;
pub use outcome::{accepted, refused};
pub use paths::{copies, paths_of};
pub use tasks::copies as copies_of_tasks;
