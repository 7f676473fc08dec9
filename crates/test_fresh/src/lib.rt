//! Tests of clean builds by whole projects.
#![tactic(auto)]

#[cfg(test)]
mod tests;
