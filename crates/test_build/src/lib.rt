//! Tests of `pie_build`: clean builds put into place, and their stores.
#![tactic(auto)]

#[cfg(test)]
mod store_tests;
#[cfg(test)]
mod tests;
