//! An evaluation in small steps, each task evaluated once, is the evaluation of the model.
#![tactic(auto)]

mod checks;
mod contents;
mod ends;
mod files;
mod roots;
mod rows;
mod steps;

pub use checks::{checks_go_by_records, kept_contents_are_provided};
pub use contents::{contents_are_kept, kept_contents_are_visible, running_tasks_see};
pub use ends::{
    roots_are_known, roots_end, roots_end_in_cycle, roots_enter_too_many, roots_fail, tasks_end,
};
pub use files::files_are_provided;
pub use roots::{
    all_roots_are_done, first_root_decides, records_are_live, roots_have_values, roots_pass,
    same_tables_rest, too_many_tasks,
};
pub use rows::rows_are_in_order;
pub use steps::{requires_go_on, roots_begin, same_tables_go_on, steps_go_on};
