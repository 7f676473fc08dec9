//! Tests of `pie_store`: texts of stores and of pending names.
#![tactic(auto)]

#[cfg(test)]
mod offer_tests;
#[cfg(test)]
mod pending_tests;
#[cfg(test)]
mod tests;
