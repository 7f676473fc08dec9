//! Tests of `pie_incremental`: what builds by what changed begin from, and what they keep and put into place.
#![tactic(auto)]

#[cfg(test)]
mod tests;
