//! The commit of a build: a marker, the changes, a store, so that a stop at any moment is told afterwards.
#![tactic(auto)]

mod parts;
mod plan;
mod sequence;

pub use plan::{Pending, Plan};
pub use sequence::commit;
