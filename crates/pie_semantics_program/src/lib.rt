//! A plain evaluator of functions, as their meaning says.
#![tactic(auto)]

mod block;
mod call;
mod chain;
mod effect;
mod evaluator;
mod expr;
mod function;
mod many;
mod names;
mod operating;
mod stop;
mod words;

pub use evaluator::Evaluator;
pub use function::{Evaluated, EvaluatorOutcome, next_of};
