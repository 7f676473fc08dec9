//! Stamps of observations, by the kinds of stampers, and the hash that they stand on.
#![tactic(auto)]

mod hash;
mod law;
mod observed;
mod stamper;
mod stampers;

pub use hash::hash_of;
pub use law::equal_stamps_mean_equal_answers;
pub use observed::Observed;
pub use stamper::Stamper;
pub use stampers::{ByDone, ByHash, ByMark, ByPresence, ByWhole};
