//! The last checks of a build: overlapping, nested and hidden writes; and the result of a build.
#![tactic(auto)]

mod built;
mod checks;
mod hidden;
mod least;
mod listing;
mod misses;
mod nested;
mod overlap;

pub use built::Built;
pub use checks::final_checks;
