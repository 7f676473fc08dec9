//! What a function means: its syntax tree, fed with answers.
#![tactic(auto)]
