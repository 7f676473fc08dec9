//! What stands in a project's folder that a build would fail at. It looks, and changes nothing.
#![tactic(auto)]

mod dir_look;
mod judging;
mod look;
mod own;
mod places;
mod report;
mod sources;
mod top;

pub use dir_look::DirLook;
pub use look::{Entry, Judged, Kind, Look, LookError, Names};
pub use report::Report;
pub use top::examined;
