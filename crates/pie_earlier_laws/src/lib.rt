//! What an earlier accepted build left, and what a list of changed paths leaves true of it.
#![tactic(auto)]

mod begins;
mod directories;
mod edges;
mod functions;
mod left;
mod met;
mod rows;
mod sources;
mod telling;
mod told;
mod whys;

pub use begins::earlier_records_begin;
pub use directories::{
    earlier_pipelines_begin, pipelines_have_manners, pipelines_leave_earlier_builds,
};
pub use edges::{next_paths_are_observed, requires_are_union_edges};
pub use functions::one_digest_is_one_next;
pub use left::{bases_go_on, unnamed_writes_are_there};
pub use met::what_stands_is_met;
pub use rows::old_rows_are_right;
pub use sources::named_stamps_decide;
pub use telling::ranked_records_tell;
pub use told::records_tell_rows;
pub use whys::reasons_are_by_evaluation;
