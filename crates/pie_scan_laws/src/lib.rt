//! What two scans tell apart is all that a build has to be told.
#![tactic(auto)]

mod laws;

pub use laws::scans_name_all_changes;
