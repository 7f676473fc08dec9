//! Functions whose tokens are spelled alike mean the same.
#![tactic(auto)]

mod laws;

pub use laws::{equal_spellings_mean_the_same, kinds_decide_a_function, spans_say_nothing};
