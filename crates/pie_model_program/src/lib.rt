//! The plain slow program of building: evaluation, entered tasks and verdict, equal to the definitions.
#![tactic(auto)]

pub mod checks;
pub mod evaluation;
pub mod names;
pub mod roots;
pub mod run;
pub mod script;
pub mod setting;
pub mod sight;
pub mod verdict;
