//! Builds by a change list that scanning finds, and the manifest that makes the next one possible.
#![tactic(auto)]

mod automatic;
mod manifest;

pub use automatic::{Automatic, auto};
pub use manifest::keep_manifest;
