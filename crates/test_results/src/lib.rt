//! Tests of `pie_results`: what builds over a small store make.
#![tactic(auto)]

#[cfg(test)]
mod tests;
