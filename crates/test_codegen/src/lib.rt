//! Tests of `pie_codegen`: compiled code and digests.
#![tactic(auto)]

#[cfg(test)]
mod tests;
