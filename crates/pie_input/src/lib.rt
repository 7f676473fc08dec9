//! An input, read to its end within the limit on its bytes, and the names of a change list or the steps of a script that it has.
#![tactic(auto)]

mod input;
mod lines;
mod names;
mod steps;

pub use input::{Input, InputError, read_input};
pub use lines::LinesError;
pub use names::read_names;
pub use steps::read_steps;
