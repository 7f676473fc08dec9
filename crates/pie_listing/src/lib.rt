//! The change list that is found by scanning.
#![tactic(auto)]

mod kept;
mod listing;
mod renewing;

pub use listing::{Listing, Reason, Scan, list, list_scanned};
pub use renewing::rescan;
