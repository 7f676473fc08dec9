//! The compiler: from a typed pipeline to code that may run.
#![tactic(auto)]

mod behind;
mod behind_block;
mod behind_chain;
mod block;
mod call;
mod chain;
mod compiling;
mod each;
mod emitter;
mod expr;
mod function;
mod kinds;
mod line;
mod room;
mod scope;
mod spot;

pub use compiling::compile;
pub use function::function_code;
pub use spot::Spot;
