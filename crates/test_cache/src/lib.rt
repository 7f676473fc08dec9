//! Tests of `pie_cache`: texts of cache files, their paths, and what opening and keeping do.
#![tactic(auto)]

#[cfg(test)]
mod keep_tests;
#[cfg(test)]
mod text_tests;
