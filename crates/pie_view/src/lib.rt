//! What a task sees at a path under `out/`.
#![tactic(auto)]

mod entered;
mod reached;
mod seen;
mod sight;
mod stage;

pub use entered::EnteredRows;
pub use seen::Seen;
pub use sight::view;
pub use stage::Stage;
