//! What is settled while a build goes by what changed, and the result of the build.
#![tactic(auto)]

mod ends;
mod going;
mod orders;
mod settled;
mod shown;
mod sweeps;

pub use ends::known_roots_decide;
pub use going::{running_tasks_end, running_tasks_stand, tasks_begin, tasks_keep_going};
pub use orders::ordered_rows_are_acyclic;
pub use settled::{closed_tasks_are_settled, settled_tasks_are_known, settled_tasks_stay};
pub use shown::known_tasks_provide;
pub use sweeps::finishes_leave_untouched;
