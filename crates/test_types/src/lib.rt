//! Tests of `pie_types`: types and refusals of pipelines.
#![tactic(auto)]

#[cfg(test)]
mod tests;
