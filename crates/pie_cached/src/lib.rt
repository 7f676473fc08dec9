//! A build that takes from the record cache what earlier builds kept, and keeps what it ran; and what is printed of it.
#![tactic(auto)]

mod building;
mod lines;

pub use building::build_cached;
pub use lines::print_cached;
