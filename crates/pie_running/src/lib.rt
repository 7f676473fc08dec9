//! One task that runs: its machine, what it has done so far, what it sees, and how it is answered.
#![tactic(auto)]

mod code;
mod frame;
mod listing;
mod looking;
mod notes;
mod observing;
mod page;
mod requiring;
mod writes;

pub use code::code_of;
pub use frame::{Caller, Paused, RunningTask, Told, Waiting};
pub use looking::{Provided, Shows, Sight};
pub use notes::Notes;
pub use page::NoteParts;
pub use requiring::Done;
