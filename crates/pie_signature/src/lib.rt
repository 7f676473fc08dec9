//! The names and signatures of the built-in functions.
#![tactic(auto)]

mod answer;
mod kinds;
mod naming;
mod parts;
mod signature;
mod wanted;

pub use answer::{Answered, answer_type};
pub use naming::builtin_named;
pub use signature::{arity, misfit, wanted_at};
pub use wanted::Wanted;
