//! Tests of the model of building, by the program that computes it.
#![tactic(auto)]

#[cfg(test)]
mod verdict_tests;
