//! Tests of `pie_code`: code that is accepted, and refusals of code.
#![tactic(auto)]

#[cfg(test)]
mod tests;
