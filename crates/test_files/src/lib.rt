//! Tests of files and streams in memory.
#![tactic(auto)]

#[cfg(test)]
mod tests;
