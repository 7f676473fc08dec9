//! A build of a directory that needs no list of changes: what it begins from, its evaluation, and what it puts into place.
#![tactic(auto)]

mod accepting;
mod base;
mod building;
mod evaluating;
mod finishing;
mod held;
mod joining;
mod news;
mod offered;
mod reusing;

pub use building::{build_offered, build_topdown};
pub use offered::{NewOffer, Offered};
