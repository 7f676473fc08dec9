//! The model of building, and the laws under incremental builds.
#![tactic(auto)]

pub mod bytes;
pub mod core_laws;
pub mod record_laws;
pub mod run_laws;
pub mod tree_laws;
pub mod words;
