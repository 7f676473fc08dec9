//! A build by what changed: what it begins from, its evaluation, and what it puts into place.
#![tactic(auto)]

mod accepting;
mod again;
mod base;
mod begin;
mod begun;
mod building;
mod cause;
mod changes;
mod committing;
mod digests;
mod ending;
mod evaluate;
mod keep;
mod names;
mod pending;
mod run;

pub use base::{Base, OwnFiles, Start};
pub use begin::find_start;
pub use building::build;
pub use changes::changes_plan;
pub use committing::commit_plan;
pub use digests::put_digests;
pub use keep::keep_names;
pub use names::joined_names;
pub use pending::pending_part;
