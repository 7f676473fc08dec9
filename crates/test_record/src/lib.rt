//! Tests of `pie_record`: records and their canonical bytes.
#![tactic(auto)]

#[cfg(test)]
mod expected_tests;
#[cfg(test)]
mod tests;
