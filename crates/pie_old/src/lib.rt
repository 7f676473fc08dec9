//! The records of an earlier build by the numbers of their tasks, and which of them are of functions that stayed the same.
#![tactic(auto)]

mod code;
mod digests;
mod graph;
mod loading;
mod looking;
mod numbering;
mod old;
mod row;
mod tying;

pub use code::same_code;
pub use digests::digests_of;
pub use loading::load;
pub use old::{Loaded, Old};
