//! The operators of the language, and what running asks of the outside and is answered.
#![tactic(auto)]

mod asking;
mod comparing;
mod fault;
mod growing;
mod infixes;
mod numbers;
mod operator;
mod prefixes;
mod sums;
mod taking;

pub use asking::{Observation, Question};
pub use fault::{OperatorFault, made};
pub use growing::{item_of, push_to_list, push_to_tuple};
pub use infixes::binary;
pub use operator::{Binary, Unary};
pub use prefixes::unary;
pub use taking::{is_content, may_observe, taken};
