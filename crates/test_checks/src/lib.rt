//! Tests of `pie_checks`: the last checks.
#![tactic(auto)]

#[cfg(test)]
mod tests;
