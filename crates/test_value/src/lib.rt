//! Tests of `pie_value`: values, tasks and their canonical bytes.
#![tactic(auto)]

#[cfg(test)]
mod tests;
