//! What a person is told of a project that is refused: the place in its line, what was expected and what was found, and a hint.
#![tactic(auto)]

mod expected;
mod going;
mod heading;
mod known;
mod lexical;
mod line;
mod naming;
mod pipeline;
mod place;
mod roots;
mod types;
mod written;

pub use pipeline::explain_pipeline;
pub use roots::explain_roots;
