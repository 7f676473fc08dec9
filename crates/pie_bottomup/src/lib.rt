//! The build by what changed: from old records and named paths, by a walk that is set aside while tasks run.
#![tactic(auto)]

mod answering;
mod cycle;
mod ending;
mod events;
mod flags;
mod looking;
mod placing;
mod plan;
mod requiring;
mod roots;
mod starting;
mod state;
mod taking;
mod testing;

pub use state::{Core, Turn};
