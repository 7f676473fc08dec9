//! The demo: a project made from a seed, built in memory after each of ten changes, and held each time against a clean build.
#![tactic(auto)]

mod comparing;
mod copying;
mod draws;
mod rounds;
mod sources;
mod whole;

pub use rounds::round;
pub use whole::{Summary, demo};
