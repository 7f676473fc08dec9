//! The tasks of a build by what changed, by their numbers: their names, their records, and which of them ran.
#![tactic(auto)]

mod tables;

pub use tables::Tables;
