//! Tests of `pie_builtins`: the answers of built-in functions.
#![tactic(auto)]

#[cfg(test)]
mod list_tests;
#[cfg(test)]
mod tests;
