//! Change lists and scripts: what a build is told by its input.
#![tactic(auto)]

mod changes;
mod fault;
mod line;
mod lines;
mod script;
mod step;

pub use changes::read_changes;
pub use fault::InputFault;
pub use script::read_script;
pub use step::Step;
