//! Tests of the real outside.
#![tactic(auto)]

#[cfg(test)]
mod tests;
