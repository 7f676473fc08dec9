//! Which tasks reach which, over any rows of a graph.
#![tactic(auto)]

mod best;
mod collect;
mod descent;
mod reach;
mod removals;
mod walk;
mod ways;

pub use best::least;
pub use collect::live;
pub use reach::{heights, is_acyclic, lowest, reaches, upstream};
pub use removals::plan_removals;
pub use walk::{Walk, closure};
pub use ways::{Down, Up, Ways};
