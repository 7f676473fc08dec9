//! Tests of `pie_semantics_program`: compiled code beside the evaluator, answer by answer.
#![tactic(auto)]

#[cfg(test)]
mod builtin_tests;
#[cfg(test)]
mod effect_tests;
#[cfg(test)]
mod given;
#[cfg(test)]
mod stories;
#[cfg(test)]
mod telling;
#[cfg(test)]
mod tests;
#[cfg(test)]
mod tick_tests;
