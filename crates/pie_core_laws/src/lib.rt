//! What each step of a build by what changed does in the model of building.
#![tactic(auto)]

mod beginning;
mod comparing;
mod ends;
mod finishing;
mod joins;
mod keeping;
mod moving;
mod reasons;
mod running;
mod seeing;

pub use beginning::builds_begin_exact;
pub use comparing::old_records_are_compared;
pub use ends::settled_roots_decide;
pub use finishing::finishes_stay_exact;
pub use joins::{comparisons_decide, earlier_builds_are_loaded};
pub use keeping::{kept_tasks_stay_exact, settled_tasks_are_known};
pub use moving::{moves_stay_exact, walks_move};
pub use reasons::fallen_records_give_reasons;
pub use running::{ended_tasks_are_right, requires_go_on, running_tasks_are_busy};
pub use seeing::settled_tasks_provide;
