//! Whether records may stand together in a store.
#![tactic(auto)]

mod heights;
mod known;
mod together;
mod walk;

pub use together::may_be_stored;
