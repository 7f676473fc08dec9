//! A build without a list of changes leaves what a clean build leaves.
#![tactic(auto)]

mod alike;
mod checks;
mod ends;
mod ledgers;
mod places;
mod running;
mod stacks;
mod tables;
mod whole;

pub use alike::evaluations_begin_alike;
pub use checks::{checks_begin, checks_end, checks_require, differences_are_reasons, places_pass};
pub use ends::{
    failed_roots_enter, outcomes_sink, recorded_roots_are_done, roots_decide, roots_stand,
    running_tasks_end,
};
pub use ledgers::{ledgers_change, right_ledgers_are_exact};
pub use places::{records_are_checked, sources_are_still, stored_records_are_old};
pub use running::{failures_are_the_roots, requirers_run_on, running_tasks_are_told, tasks_run};
pub use stacks::{stacks_change, stacks_stand};
pub use tables::{recorded_tasks_are_settled, tables_change};
pub use whole::{builds_go_beside, entries_stay};
