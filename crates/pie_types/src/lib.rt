//! The types of a pipeline: each expression has one, and what has none is refused at its place.
#![tactic(auto)]

mod block;
mod call;
mod callee;
mod chain;
mod checking;
mod declaring;
mod error;
mod expr;
mod headings;
mod kinds;
mod matching;
mod part;
mod room;
mod scope;
mod typed;
mod written;

pub use checking::check;
pub use error::{TypeError, TypeFault, TypeKind};
pub use room::MAX_TYPE_PARTS;
pub use typed::Typed;
