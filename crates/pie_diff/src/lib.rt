//! What an accepted build by what changed writes and removes.
#![tactic(auto)]

mod held;
mod known;
mod removed;
mod written;

pub use held::Held;
pub use known::held_by;
pub use removed::removals;
pub use written::writes;
