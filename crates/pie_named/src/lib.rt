//! What the named paths of a build hold now, and the directories above them.
#![tactic(auto)]

mod asking;
mod comparing;
mod named;
mod now;
mod paths;
mod stamps;

pub use named::Named;
