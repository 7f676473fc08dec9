//! Tests of `pie_compare`: whether old records stand.
#![tactic(auto)]

#[cfg(test)]
mod records;
#[cfg(test)]
mod tests;
