//! An order in which each task stands after all that it requires.
#![tactic(auto)]

mod agreeing;
mod candidates;
mod cycle;
mod marks;
mod order;
mod placed;
mod placing;
mod search;
mod side;
mod within;

pub use candidates::Candidates;
pub use order::Order;
