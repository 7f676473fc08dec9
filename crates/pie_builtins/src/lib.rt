//! What the built-in functions answer.
#![tactic(auto)]

mod answers;
mod bytes;
mod fault;
mod finding;
mod joins;
mod lists;
mod nulls;
mod numbers;
mod paths;
mod pieces;
mod ranges;
mod segments;
mod sorts;
mod texts;
mod trims;

pub use answers::apply;
pub use fault::BuiltinFault;
