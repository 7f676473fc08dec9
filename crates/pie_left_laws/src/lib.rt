//! The directory that a build by what changed leaves is that of a clean build.
#![tactic(auto)]

mod accepted;
mod bases;
mod held;
mod placed;
mod reported;

pub use accepted::clean_results_are_accepted;
pub use bases::builds_go_on;
pub use held::old_records_hold_rightly;
pub use placed::placed_builds_are_built;
pub use reported::changes_are_reported;
