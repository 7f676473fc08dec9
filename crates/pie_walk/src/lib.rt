//! The walk of an incremental build: down the requires of tasks, each of which is visited once, and set aside while a task runs.
#![tactic(auto)]

mod earlier;
mod flags;
mod marks;
mod running;
mod scan;
mod stack;
mod sweep;
mod walk;
mod walking;

pub use earlier::needs_are_earlier;
pub use marks::Mark;
pub use stack::Entry;
pub use walk::Walk;
pub use walking::Turn;
