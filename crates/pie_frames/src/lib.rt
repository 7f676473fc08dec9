//! The tasks of an incremental build that were taken and wait for one that they require, beside the walk.
#![tactic(auto)]

mod ending;
mod frames;
mod parked;
mod scheduling;
mod turns;

pub use frames::Frames;
pub use parked::{Parked, Running};
pub use turns::Next;
