//! Where tokens stop being a pipeline, said by the grammar alone.
#![tactic(auto)]

mod laws;

pub use laws::answers_are_by_the_grammar;
